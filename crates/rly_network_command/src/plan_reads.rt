//! The plans of `rly network check`, and the parameters of the devices that belong to them.

ghost use Rattle.std.specs.Prelude.{◌≡◌, ◌≢◌, ◌==◌, IfOk, IfSome, List, Some, length, map, string_bytes};
ghost use Rattle.std.specs.List.{before_first};
ghost use Rattle.rly_network_command.specs.NetworkCheck.{AreDevices, AreRead, IsDeviceOf, IsReadOf, PlanRead, look_of, station_of};
ghost use Rattle.rly_network_command.specs.NetworkCheck.{unknown_device};
ghost use Rattle.rly_network_folder.specs.ShelfCalls.{AllCalls, Calls, Looked, OnlyLooked, ShelfCall};

use crate::network_command_fault::NetworkCommandFault;
use crate::station_wishes::push;
use rly_core::limits::{MAX_HOPS, MAX_PEERS};
use rly_core::{Params, Refusal};
use rly_daemon_commands::{CommandFault, FileDisk, refusal_with_cause};
use rly_network::StationPlan;
use rly_network_folder::Shelf;
use rly_plan::Plan;
use rly_segment::{HeaderFault, read_header};
use rly_station::{ServeFault, SystemWord};
use std::alloc::{AllocError, Global};
use std::fs::{File, Files};
use std::io;
use std::io::ErrorKind;

/// The system's error of a file that isn't there.
const NOT_THERE: i32 = 2;

/// The stations of these names, whose devices have these parameters.
pub(crate) fn read_stations<S: Shelf>(
    alloc: Global,
    shelf: &mut S,
    names: &[&str],
    devices: &[Params],
) -> Result<Vec<StationPlan>, NetworkCommandFault>
    requires { length devices.now ≡ length names.now }
    ensures read { IfOk result (λ stations. (calls : List ShelfCall)
        × AreRead (map (λ s. s.now) names.now) devices.now stations.items calls
        × AllCalls (S.calls shelf.old) (S.calls shelf.new) calls) }
    ensures looked { OnlyLooked (S.calls shelf.old) (S.calls shelf.new) }
{
    let mut stations = Vec::new(alloc);
    for index in 0..names.len() {
        let name = &names[index];
        let device = &devices[index];
        match read_station(alloc, shelf, name, *device) {
            Ok(station) => push(&mut stations, station)?,
            Err(fault) => return Err(NetworkCommandFault::Plan(index, fault)),
        }
    }
    Ok(stations)
}

/// The station of a name, whose device has these parameters.
fn read_station<S: Shelf>(
    alloc: Global,
    shelf: &mut S,
    name: &str,
    device: Params,
) -> Result<StationPlan, CommandFault>
    ensures read { IfOk result (λ station. (read : PlanRead) × IsReadOf name.now device read × (station ≡ station_of read)
        × Calls (S.calls shelf.old) (S.calls shelf.new) (look_of read)) }
    ensures looked { OnlyLooked (S.calls shelf.old) (S.calls shelf.new) }
{
    let (path, _device) = plan_and_device(name);
    let text = plan_text(shelf, path)?;
    match Plan::read(alloc, text.as_str()) {
        Ok(plan) => Ok(StationPlan { plan, device }),
        Err(fault) => Err(CommandFault::Serve(fault.into())),
    }
}

/// The text of the plan at a path.
fn plan_text<S: Shelf>(shelf: &mut S, path: &str) -> Result<String, ServeFault>
    ensures called { IfOk result (λ text. Calls (S.calls shelf.old) (S.calls shelf.new) (Looked path.now (Some (string_bytes text)))) }
    ensures looked { OnlyLooked (S.calls shelf.old) (S.calls shelf.new) }
{
    match shelf.look(path) {
        Ok(Some(bytes)) => text_of(bytes),
        Ok(None) => Err(ServeFault::Plan(SystemWord(io::Error::from_raw_os_error(NOT_THERE)))),
        Err(fault) if fault.word.kind() == ErrorKind::InvalidInput => Err(ServeFault::SpecialPlan),
        Err(fault) if fault.word.kind() == ErrorKind::OutOfMemory => Err(AllocError.into()),
        Err(fault) => Err(ServeFault::Plan(SystemWord(fault.word))),
    }
}

fn text_of(bytes: Vec<u8>) -> Result<String, ServeFault>
    ensures { IfOk result (λ text. string_bytes text ≡ bytes.items) }
{
    match String::from_utf8(bytes) {
        Ok(text) => Ok(text),
        Err(_) => Err(ServeFault::Plan(SystemWord(io::Error::from(ErrorKind::InvalidData)))),
    }
}

/// The path of the plan in a name, and that of the device after the first `=`, if there is one.
pub fn plan_and_device(name: &str) -> (&str, Option<&str>)
    ensures path { result.0.now ≡ before_first (λ b. b == 61) name.now }
    ensures rest { IfSome result.1 (λ _. result.0.now ≢ name.now) }
{
    match name.split_once('=') {
        Some((path, file)) => (path, Some(file)),
        None => (name, None),
    }
}

/// The parameters of the device that belongs to each name.
pub(crate) fn devices_of<H: AllocGlobal + Files<File = File>>(
    rt: &H,
    names: &[&str],
) -> Result<Vec<Params>, NetworkCommandFault>
    ensures { IfOk result (λ devices. AreDevices (map (λ s. s.now) names.now) devices.items) }
{
    let mut devices = Vec::new(rt.alloc());
    for index in 0..names.len() {
        match device_of(rt, names[index]) {
            Ok(params) => push(&mut devices, params)?,
            Err(fault) => return Err(NetworkCommandFault::Plan(index, fault)),
        }
    }
    Ok(devices)
}

fn device_of<H: AllocGlobal + Files<File = File>>(
    rt: &H,
    name: &str,
) -> Result<Params, CommandFault>
    ensures { IfOk result (λ device. IsDeviceOf name.now device) }
{
    let (_path, device) = plan_and_device(name);
    match device {
        Some(file) => device_in(rt, file),
        None => Ok(unknown_device()),
    }
}

/// A device of which nothing is known: it has each hop and peer, and the default payload.
fn unknown_device() -> Params
    ensures { result ≡ unknown_device }
{
    Params {
        hops: MAX_HOPS,
        peers: MAX_PEERS,
        ..Params::DEFAULT
    }
}

/// The parameters of the device in a file. It is only read, without a lock, so a station may serve it.
fn device_in<H: AllocGlobal + Files<File = File>>(
    rt: &H,
    file: &str,
) -> Result<Params, CommandFault> {
    let mut disk = FileDisk::open_copy(rt, file)?;
    match read_header(&mut disk) {
        Ok(geometry) => Ok(geometry.params),
        Err(HeaderFault::NotADevice) => Err(refusal_with_cause(Refusal::NotADevice, &disk)),
        Err(HeaderFault::BadGeometry) => Err(refusal_with_cause(Refusal::BadGeometry, &disk)),
        Err(HeaderFault::Device) => Err(refusal_with_cause(Refusal::Device, &disk)),
    }
}

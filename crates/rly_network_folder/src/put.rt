//! Puts the wanted files on a shelf.

ghost use Rattle.std.specs.Prelude.{◌≡◌, ℕ, List, [], ◌∷◌, Option, IfOk, OnErr, OnOk, not, option_map};
ghost use Rattle.std.specs.Prelude.{◌++◌};
ghost use Rattle.rly_network_folder.specs.ShelfCalls.{AllCalls, Made, OnlyLooked, ShelfCall};
ghost use Rattle.rly_network_folder.specs.Wanted.{AreAllPut, AreSomePut, AreStationsPut, IsFirst, IsKeyFrom, IsKeyLine, IsKeyPut};
ghost use Rattle.rly_network_folder.specs.Wanted.{IsPut, all_wanted, is_text, text_calls};

use crate::shelf::Shelf;
use crate::shelf_fault::PutFault;
use crate::wanted::Wanted;
use rly_link_auth::{KEY_BYTES, LINE_BYTES, key_line};
use std::alloc::Global;
use std::random::RandomSource;

/// Puts the wanted files of each station on a shelf, in their order, and returns of each station whether a file of it is new.
/// After an `Err` the files before the one that failed are put, and the others stay.
pub fn put_stations<S: Shelf, R: RandomSource>(
    alloc: Global,
    shelf: &mut S,
    source: &R,
    stations: &[Vec<Wanted>],
) -> Result<Vec<bool>, PutFault>
    ensures put { IfOk result (λ new. (calls : List ShelfCall) × AreStationsPut stations.now new.items calls
        × AllCalls (S.calls shelf.old) (S.calls shelf.new) calls) }
    ensures some { OnErr result ((calls : List ShelfCall) × AreSomePut (all_wanted stations.now) calls
        × AllCalls (S.calls shelf.old) (S.calls shelf.new) calls) }
{
    let mut new = Vec::new(alloc);
    for wanted in stations {
        let is_new = put_all(shelf, source, wanted)?;
        if let Err(_refused) = new.push(is_new) {
            return Err(PutFault::OutOfMemory);
        }
    }
    Ok(new)
}

/// Puts the wanted files of one station, and returns whether one of them is new.
pub fn put_all<S: Shelf, R: RandomSource>(
    shelf: &mut S,
    source: &R,
    wanted: &[Wanted],
) -> Result<bool, PutFault>
    ensures put { IfOk result (λ new. (calls : List ShelfCall) × AreAllPut wanted.now new calls
        × AllCalls (S.calls shelf.old) (S.calls shelf.new) calls) }
    ensures some { OnErr result ((calls : List ShelfCall) × AreSomePut wanted.now calls
        × AllCalls (S.calls shelf.old) (S.calls shelf.new) calls) }
{
    let mut new = false;
    for one in wanted {
        let is_new = put_one(shelf, source, one)?;
        new = new | is_new;
    }
    Ok(new)
}

/// Puts one file.
fn put_one<S: Shelf, R: RandomSource>(
    shelf: &mut S,
    source: &R,
    wanted: &Wanted,
) -> Result<bool, PutFault>
    ensures put { IfOk result (λ new. (calls : List ShelfCall) × IsPut wanted.now new calls
        × AllCalls (S.calls shelf.old) (S.calls shelf.new) calls) }
    ensures looked { OnErr result (OnlyLooked (S.calls shelf.old) (S.calls shelf.new)) }
{
    match wanted {
        Wanted::Text { path, text } => put_text(shelf, path.as_str(), text.as_str()),
        Wanted::Key { path, others } => put_key(shelf, source, path.as_str(), others),
    }
}

/// Puts a text, unless it is there already.
fn put_text<S: Shelf>(shelf: &mut S, path: &str, text: &str) -> Result<bool, PutFault>
    ensures put { IfOk result (λ new. (found : Option (List ℕ)) × (new ≡ not (is_text text.now found))
        × AllCalls (S.calls shelf.old) (S.calls shelf.new) (text_calls path.now text.now found)) }
    ensures looked { OnErr result (OnlyLooked (S.calls shelf.old) (S.calls shelf.new)) }
{
    let found = shelf.look(path)?;
    if is_text(text, &found) {
        return Ok(false);
    }
    shelf.replace(path, text.as_bytes())?;
    Ok(true)
}

/// Whether a file that was looked for has this text.
fn is_text(text: &str, found: &Option<Vec<u8>>) -> bool
    ensures { result ≡ is_text text.now (option_map (λ v. v.items) found.now) }
{
    match found {
        Some(bytes) => bytes.as_slice() == text.as_bytes(),
        None => false,
    }
}

/// Puts a key, unless one is there.
fn put_key<S: Shelf, R: RandomSource>(
    shelf: &mut S,
    source: &R,
    path: &str,
    others: &[String],
) -> Result<bool, PutFault>
    ensures put { IfOk result (λ new. (calls : List ShelfCall) × IsKeyPut path.now others.now new calls
        × AllCalls (S.calls shelf.old) (S.calls shelf.new) calls) }
    ensures looked { OnErr result (OnlyLooked (S.calls shelf.old) (S.calls shelf.new)) }
{
    let found = shelf.look(path)?;
    if let Some(_there) = found {
        return Ok(false);
    }
    make_key(shelf, source, path, others)?;
    Ok(true)
}

/// Makes a key that is missing: the one that is elsewhere, or a new one.
fn make_key<S: Shelf, R: RandomSource>(
    shelf: &mut S,
    source: &R,
    path: &str,
    others: &[String],
) -> Result<(), PutFault>
    ensures made { OnOk result ((far : Option (List ℕ)) × (key : List ℕ) × (looks : List ShelfCall) × IsKeyFrom far key
        × IsFirst others.now far looks
        × AllCalls (S.calls shelf.old) (S.calls shelf.new) (looks ++ Made path.now key ∷ [])) }
    ensures looked { OnErr result (OnlyLooked (S.calls shelf.old) (S.calls shelf.new)) }
{
    if let Some(key) = first_key(shelf, others)? {
        shelf.make(path, &key)?;
        return Ok(());
    }
    let line = new_key(source)?;
    shelf.make(path, &line)?;
    Ok(())
}

/// The key at the first of these paths that has one.
fn first_key<S: Shelf>(shelf: &mut S, others: &[String]) -> Result<Option<Vec<u8>>, PutFault>
    ensures first { IfOk result (λ found. (looks : List ShelfCall)
        × IsFirst others.now (option_map (λ v. v.items) found) looks
        × AllCalls (S.calls shelf.old) (S.calls shelf.new) looks) }
    ensures looked { OnlyLooked (S.calls shelf.old) (S.calls shelf.new) }
{
    for other in others {
        if let Some(key) = shelf.look(other.as_str())? {
            return Ok(Some(key));
        }
    }
    Ok(None)
}

/// The line of a new key.
fn new_key<R: RandomSource>(source: &R) -> Result<[u8; LINE_BYTES], PutFault>
    ensures { IfOk result (λ line. IsKeyLine line) }
{
    let mut key = [0; KEY_BYTES];
    match source.fill_bytes(&mut key) {
        Ok(()) => Ok(key_line(&key)),
        Err(error) => Err(PutFault::Random(error)),
    }
}

//! A link whose far end is a folder: the neighbour's packets, and a bell.
use crate::peer_neighbour::{CUSTODY, DATA, QUESTION, neighbour, two_files};
use rly_hop::MAX_MESSAGE;
use rly_link::{Link, MemLink, Sleep};
use rly_link_folder::FolderLink;
use std::process::Abort;

/// Checks that a receive returns this packet; an empty one stands for none.
fn expect_received<R: Abort, L: Link>(rt: &R, link: &mut L, sleep: Sleep, packet: &[u8], row: u64) {
    let mut buffer = [0; MAX_MESSAGE];
    match link.recv(sleep, &mut buffer) {
        Ok(found) => expect!(*rt; &buffer[..found.unwrap_or(0)] == packet, row),
        Err(_) => expect!(*rt; false, row),
    }
}

/// A packet at the bell carries nothing. A wait that ends with nothing makes the neighbour give again.
#[test]
fn a_link_gives_the_files(rt: HostRuntime) {
    let rung = b"x".to_vec(rt.alloc()).expect(&rt, "memory");
    let coming = vec![in rt.alloc(); Some(rung), None].expect(&rt, "memory");
    let bell = MemLink::new(rt.alloc(), coming, 3);
    let far = neighbour(&rt, rt.alloc(), None, two_files(&rt, rt.alloc()));
    let mut link = FolderLink::new(far, bell);
    expect_received(&rt, &mut link, Sleep::Woken, QUESTION, 0);
    expect!(rt; link.send(CUSTODY[0]).is_ok());
    expect_received(&rt, &mut link, Sleep::Woken, DATA[0], 1);
    expect_received(&rt, &mut link, Sleep::No, DATA[1], 2);
    expect_received(&rt, &mut link, Sleep::Woken, &[], 3);
    expect_received(&rt, &mut link, Sleep::Woken, &[], 4);
    expect_received(&rt, &mut link, Sleep::Woken, DATA[0], 5);
    expect!(rt; link.send(CUSTODY[2]).is_ok());
    // The bell fails at its third call.
    expect!(rt; link.recv(Sleep::Woken, &mut [0; MAX_MESSAGE]).is_err());
    expect!(rt; link.failures() == 1);
    let (far, bell) = link.into_parts();
    expect!(rt; bell.waits() == 3);
    crate::peer_neighbour::expect_left(&rt, far, &[], 6);
}

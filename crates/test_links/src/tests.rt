// Connections and listeners.
use sheet_outside::{
    Link, Listener, MemoryLink, MemoryListener, SureLink, SureListener, TcpDoor, TcpLink,
};
use std::io::{Read, Write};
use std::net::{Ipv4Addr, Net, Shutdown, TcpStream};
use std::test::Fail;

#[test]
fn a_connection_gives_and_takes(rt: HostRuntime) -> Result<(), Fail> {
    let mut link = SureLink::new(b"abc".to_vec(rt.alloc())?);
    let mut piece = [0u8; 2];
    assert!(rt; link.receive(&mut piece).is_ok_and(|n| n == 2));
    assert!(rt; link.send(b"xy").is_ok_and(|n| n == 2));
    assert!(rt; link.receive(&mut piece).is_ok_and(|n| n == 1));
    assert!(rt; link.receive(&mut piece).is_ok_and(|n| n == 0));
    assert!(rt; link.sent().is_some_and(|b| b == b"xy".as_slice()));
    Ok(())
}

#[test]
fn connections_come_in_order(rt: HostRuntime) -> Result<(), Fail> {
    let alloc = rt.alloc();
    let mut links = Vec::new(alloc);
    links.push(SureLink::new(b"a".to_vec(alloc)?))?;
    links.push(SureLink::new(b"b".to_vec(alloc)?))?;
    let mut listener = SureListener::new(links);
    assert!(rt; listener.listen(80).is_ok());
    let mut piece = [0u8; 1];
    for wanted in [b'a', b'b'] {
        let Ok(Some(mut link)) = listener.accept() else {
            panic!(rt; "no connection");
        };
        assert!(rt; link.receive(&mut piece).is_ok_and(|n| n == 1));
        assert_eq!(rt; piece[0], wanted);
        assert!(rt; link.send(&piece).is_ok_and(|n| n == 1));
        listener.finish(link);
    }
    assert!(rt; listener.accept().is_ok_and(|link| link.is_none()));
    assert!(rt; listener.sent(0).is_some_and(|b| b == b"a".as_slice()));
    assert!(rt; listener.sent(1).is_some_and(|b| b == b"b".as_slice()));
    Ok(())
}

#[test]
fn named_calls_of_a_connection_fail(rt: HostRuntime) -> Result<(), Fail> {
    let alloc = rt.alloc();
    let link = MemoryLink::new(b"abc".to_vec(alloc)?, [2].to_vec(alloc)?);
    let mut links = Vec::new(alloc);
    links.push(link)?;
    let mut listener = MemoryListener::new(links, [1].to_vec(alloc)?);
    assert!(rt; listener.listen(1).is_err());
    let Ok(Some(mut link)) = listener.accept() else {
        panic!(rt; "no connection");
    };
    let mut piece = [0u8; 2];
    assert!(rt; link.receive(&mut piece).is_ok_and(|n| n == 2));
    assert!(rt; link.send(b"x").is_err());
    assert!(rt; link.send(b"y").is_ok_and(|n| n == 1));
    listener.finish(link);
    let link = listener.finished(0);
    assert!(rt; link.is_some_and(|l| l.sent().is_some_and(|b| b == b"y".as_slice())));
    Ok(())
}

// A door that listens at one of some ports, and the port.
fn open_door<R: Net>(net: &R) -> Option<(TcpDoor<'_, R>, u16)> {
    let mut door = TcpDoor::new(net);
    for port in 47_190..47_290u16 {
        if door.listen(port).is_ok() {
            return Some((door, port));
        }
    }
    None
}

#[test]
fn a_door_lets_in_who_connects(rt: HostRuntime) -> Result<(), Fail> {
    let mut closed = TcpDoor::new(&rt);
    assert!(rt; closed.accept().is_err());
    let Some((mut door, port)) = open_door(&rt) else {
        panic!(rt; "no port");
    };
    let mut client = TcpStream::connect(&rt, (Ipv4Addr::new(127, 0, 0, 1), port))?;
    client.write_all(b"hello")?;
    client.shutdown(Shutdown::Write)?;
    let Ok(Some(mut link)) = door.accept() else {
        panic!(rt; "no connection");
    };
    let mut piece = [0u8; 16];
    assert!(rt; link.receive(&mut piece).is_ok_and(|n| n == 5));
    assert!(rt; link.receive(&mut piece).is_ok_and(|n| n == 0));
    assert!(rt; link.send(b"bye").is_ok_and(|n| n == 3));
    door.finish(link);
    let mut got = [0u8; 8];
    let count = client.read(&mut got)?;
    assert_eq!(rt; count, 3);
    Ok(())
}

// A second door listens where a first one let a connection in, although that connection isn't long gone.
#[test]
fn an_address_that_was_just_used_is_used_again(rt: HostRuntime) -> Result<(), Fail> {
    let Some((mut door, port)) = open_door(&rt) else {
        panic!(rt; "no port");
    };
    let client = TcpStream::connect(&rt, (Ipv4Addr::new(127, 0, 0, 1), port))?;
    let Ok(Some(mut link)) = door.accept() else {
        panic!(rt; "no connection");
    };
    assert!(rt; link.send(b"bye").is_ok_and(|n| n == 3));
    door.finish(link);
    drop(client);
    drop(door);
    let mut again = TcpDoor::new(&rt);
    assert!(rt; again.listen(port).is_ok());
    Ok(())
}

// How many of some sends succeed before one fails.
fn sends_before_a_failure<S: Read + Write>(link: &mut TcpLink<S>) -> Option<usize> {
    for count in 0..1000usize {
        if link.send(b"to nobody").is_err() {
            return Some(count);
        }
    }
    None
}

// To send to who has gone is a failed call, and the program goes on.
#[test]
fn a_peer_that_goes_away_is_a_failed_call(rt: HostRuntime) -> Result<(), Fail> {
    let Some((mut door, port)) = open_door(&rt) else {
        panic!(rt; "no port");
    };
    let client = TcpStream::connect(&rt, (Ipv4Addr::new(127, 0, 0, 1), port))?;
    let Ok(Some(mut link)) = door.accept() else {
        panic!(rt; "no connection");
    };
    drop(client);
    assert!(rt; sends_before_a_failure(&mut link).is_some());
    assert!(rt; link.send(b"again").is_err());
    door.finish(link);
    Ok(())
}

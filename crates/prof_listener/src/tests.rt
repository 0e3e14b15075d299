// A client and the hall on one thread.

use crate::OsHall;
use prof_io::{Hall, Source, copy_out};
use std::io;
use std::io::{Read, Write};
use std::net::{Ipv4Addr, OpenStream, Shutdown, TcpStream};

const MESSAGES: &[u8] =
    b"POST /sessions/a/open HTTP/1.1\r\nHost: x\r\nContent-Length: 6\r\n\r\nmain 0GET /sessions/a/address HTTP/1.1\r\nHost: x\r\n\r\n";

const RESPONSES: &[u8] =
    b"HTTP/1.1 200 OK\r\ncontent-type: text/plain; charset=utf-8\r\ncontent-length: 5\r\n\r\nok 0\nHTTP/1.1 200 OK\r\ncontent-type: text/plain; charset=utf-8\r\ncontent-length: 17\r\n\r\naddress thread=0\n";

#[test]
fn a_client_is_served(rt: HostRuntime) -> io::Result<()> {
    let mut hall = OsHall::new(&rt);
    let mut chosen = 0;
    for port in 47_100..47_200u16 {
        if hall.listen(port).is_ok() {
            chosen = port;
            break;
        }
    }
    assert!(rt; chosen != 0);
    let mut client = TcpStream::connect(&rt, (Ipv4Addr::new(127, 0, 0, 1), chosen))?;
    client.write_all(MESSAGES)?;
    client.shutdown(Shutdown::Write)?;
    assert!(rt; hall.next() == Ok(true));
    let mut came = Vec::new(rt.alloc());
    let mut page = [0u8; 16];
    for _ in 0..=MESSAGES.len() {
        match hall.read(&mut page) {
            Ok(count) if count > 0 => came.extend_from_slice(&page[..count])?,
            _ => break,
        }
    }
    assert!(rt; came.as_slice() == MESSAGES);
    assert!(rt; copy_out(&mut hall, RESPONSES).is_ok());
    drop(hall);
    let mut got = Vec::new(rt.alloc());
    client.read_to_end(&mut got)?;
    assert!(rt; got.as_slice() == RESPONSES);
    Ok(())
}

//! A connection to a device at a port of this machine, with one limit of time for all that goes over it.

use crate::fault::{PutFault, TakeFault};
use crate::standard_stream::write_whole;
use crate::stream::{Sink, Source};
use std::io::{self, ErrorKind, Read, Write};
use std::net::{Ipv4Addr, Net, OpenStream, Shutdown, SocketAddr, TcpStream};
use std::rt;
use std::time::{Duration, Instant};

/// How long the whole of an exchange may take, from the connecting to the end of the answer, in seconds.
const PATIENCE: u64 = 30;

/// What is read and written by one limit of time.
struct Timed<'a, R: Net + rt::Clock> {
    rt: &'a R,
    stream: R::Stream,
    started: Instant,
}

impl<R: Net + rt::Clock> Drop for Timed<'_, R> {
    fn drop(self) {
        let Timed {
            rt: _,
            stream: _stream,
            started: _,
        } = self;
    }
}

impl<R: Net + rt::Clock> Timed<'_, R> {
    /// What is left of the time, which is more than nothing.
    fn time_left(&self) -> io::Result<Duration> {
        let passed = self.started.elapsed(self.rt)?;
        match Duration::from_secs(PATIENCE).checked_sub(passed) {
            Some(left) if !left.is_zero() => Ok(left),
            _ => Err(io::Error::from(ErrorKind::TimedOut)),
        }
    }
}

impl<R: Net + rt::Clock> Read for Timed<'_, R> {
    fn read(&mut self, out: &mut [u8]) -> io::Result<usize> {
        let left = self.time_left()?;
        self.stream.set_read_timeout(Some(left))?;
        self.stream.read(out)
    }
}

impl<R: Net + rt::Clock> Write for Timed<'_, R> {
    fn write(&mut self, bytes: &[u8]) -> io::Result<usize> {
        let left = self.time_left()?;
        self.stream.set_write_timeout(Some(left))?;
        self.stream.write(bytes)
    }

    fn flush(&mut self) -> io::Result<()> {
        Ok(())
    }
}

/// One of the two directions of a connection. It tells nothing of what is read and written.
pub struct Connection<'a, R: Net + rt::Clock> {
    timed: Timed<'a, R>,
    faults: u64,
}

impl<R: Net + rt::Clock> Drop for Connection<'_, R> {
    fn drop(self) {
        let Connection {
            timed: _timed,
            faults: _,
        } = self;
    }
}

/// Connects to a port of 127.0.0.1: the direction in which the answer comes, and the one in which the request goes.
pub fn connect<R: Net + rt::Clock>(
    rt: &R,
    port: u16,
) -> io::Result<(Connection<'_, R>, Connection<'_, R>)> {
    let started = Instant::now(rt)?;
    let address = SocketAddr::from((Ipv4Addr::LOCALHOST, port));
    let stream = TcpStream::connect_timeout(rt, &address, Duration::from_secs(PATIENCE))?;
    // Else the body may wait until the device has acknowledged its length.
    stream.set_nodelay(true)?;
    let answers = stream.try_clone()?;
    Ok((
        direction(rt, answers, started),
        direction(rt, stream, started),
    ))
}

fn direction<'a, R: Net + rt::Clock>(
    rt: &'a R,
    stream: R::Stream,
    started: Instant,
) -> Connection<'a, R> {
    let timed = Timed {
        rt,
        stream,
        started,
    };
    Connection { timed, faults: 0 }
}

impl<R: Net + rt::Clock> Source for Connection<'_, R> {
    ghost use Rattle.std.specs.Prelude.{None};

    ghost told = { λ c. record { left = None; faults = c.faults } };

    ghost beside = { λ c. record { held = None; faults = 0 } };

    fn take(&mut self, out: &mut [u8]) -> Result<usize, TakeFault> {
        match self.timed.read(out) {
            Ok(count) => Ok(count),
            Err(_) => {
                self.faults = self.faults.saturating_add(1);
                Err(TakeFault)
            }
        }
    }
}

impl<R: Net + rt::Clock> Sink for Connection<'_, R> {
    ghost use Rattle.std.specs.Prelude.{None};

    ghost told = { λ c. record { held = None; faults = c.faults } };

    ghost beside = { λ c. record { left = None; faults = 0 } };

    fn put(&mut self, bytes: &[u8]) -> Result<(), PutFault> {
        match write_whole(&mut self.timed, bytes) {
            Ok(()) => Ok(()),
            Err(_) => {
                self.faults = self.faults.saturating_add(1);
                Err(PutFault)
            }
        }
    }

    /// The device reads the end of its input; where that fails, so does what is taken next.
    fn end(&mut self) {
        let _ = self.timed.stream.shutdown(Shutdown::Write);
    }
}

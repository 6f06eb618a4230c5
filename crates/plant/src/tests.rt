ghost use Rattle.std.specs.Prelude.{◌≡◌, [], ◌∷◌};
ghost use Rattle.plant.specs.Stops.{LeftNow};
ghost use Rattle.plant.specs.Memory.{plant_stops};

use crate::loopback::exchange;
use crate::size_limit::limit_in;
use crate::{MemoryPlant, MemorySink, MemorySource, Plant, SIGNATURE_ROOM, SignerFault};
use gate_base::{Bytes, Sequence};
use std::alloc::Global;
use std::process::Abort;

fn bytes<R: Abort>(rt: &R, alloc: Global, text: &[u8]) -> Bytes
    ensures { result ≡ text.now }
{
    Bytes::from_slice(alloc, text).expect(rt, "memory")
}

/// A disk of three bytes, the last two of which were written over without a sync.
fn written_over<R: Abort>(rt: &R, alloc: Global) -> MemoryPlant
    // A stop may leave what stood there, what was written, or anything else in the range.
    ensures before { LeftNow (plant_stops result) (97 ∷ 98 ∷ 99 ∷ []) [] }
    ensures written { LeftNow (plant_stops result) (97 ∷ 120 ∷ 121 ∷ []) [] }
    ensures torn { LeftNow (plant_stops result) (97 ∷ 120 ∷ 0 ∷ []) [] }
{
    let disk = bytes(rt, alloc, b"abc");
    let mut plant = MemoryPlant::new(alloc, disk, Sequence::new(alloc), Sequence::new(alloc));
    plant.write_at(1, b"xy").expect(rt, "memory");
    plant
}

#[test]
fn a_stop_may_tear_a_write(rt: HostRuntime) {
    let plant = written_over(&rt, rt.alloc());
    assert_eq!(rt; plant.disk(), b"axy".as_slice());
}

#[test]
fn limits_are_read(rt: HostRuntime) {
    for (list, want) in [
        (
            b"Limit  Soft Limit\nMax file size     1024    unlimited   bytes\nMax data size 1".as_slice(),
            Some(1_024),
        ),
        (
            b"Max file size             unlimited            unlimited            bytes",
            None,
        ),
        (b"Max data size 7 7 bytes", None),
        (b"Max file size", None),
        (b"\xff Max file size 7 7 bytes", None),
    ] {
        assert_eq!(rt; limit_in(list), want, "{list:?}");
    }
}

/// The reply to a body over a source and a sink in memory.
fn exchanged<R: Abort>(
    rt: &R,
    alloc: Global,
    reply: &[u8],
    out: &mut [u8; SIGNATURE_ROOM],
) -> Result<usize, SignerFault> {
    let mut source = MemorySource::new(bytes(rt, alloc, reply), Sequence::new(alloc));
    let mut sink = MemorySink::new(alloc, Sequence::new(alloc));
    let signed = exchange(&mut source, &mut sink, b"abc", out);
    assert_eq!(rt; sink.bytes(), b"\x00\x00\x00\x03abc".as_slice());
    signed
}

#[test]
fn an_answer_is_whole_and_alone(rt: HostRuntime) {
    let mut out = [0; SIGNATURE_ROOM];
    for (reply, want) in [
        (b"\x00\x02xy".as_slice(), Ok(2)),
        (b"", Err(SignerFault)),
        (b"\x00", Err(SignerFault)),
        (b"\x00\x00", Err(SignerFault)),
        (b"\x00\x00x", Err(SignerFault)),
        (b"\x00\x02x", Err(SignerFault)),
        (b"\x00\x02xyz", Err(SignerFault)),
        (b"\x04\x01x", Err(SignerFault)),
        (b"\x00\x03abc", Ok(3)),
    ] {
        let signed = exchanged(&rt, rt.alloc(), reply, &mut out);
        assert_eq!(rt; signed, want, "{reply:?}");
    }
    assert_eq!(rt; &out[..3], b"abc".as_slice());
}

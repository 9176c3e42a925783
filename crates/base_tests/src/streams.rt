// Reading and writing in pieces, with calls that fail.
ghost use Rattle.std.specs.Prelude.{◌<◌};

use link_base::{NumberList, copy_bytes};
use link_io::{MemSink, MemSource, ReadFault, WriteFault, read_up_to, write_all};
use std::alloc::Global;
use std::test::Fail;

const TEXT: &[u8] = b"0123456789";

fn source(alloc: Global, piece: u32, fails: &[u64]) -> Result<MemSource, Fail>
    requires { 0 < piece }
{
    let fails = NumberList::from_vec(Vec::from_slice(alloc, fails)?);
    Ok(MemSource::new(copy_bytes(alloc, TEXT)?, piece, fails))
}

fn sink(alloc: Global, piece: u32, fails: &[u64]) -> Result<MemSink, Fail>
    requires { 0 < piece }
{
    let fails = NumberList::from_vec(Vec::from_slice(alloc, fails)?);
    Ok(MemSink::new(alloc, piece, fails))
}

#[test]
fn reads_up_to_a_limit_in_any_pieces(rt: HostRuntime) -> Result<(), Fail> {
    let alloc = rt.alloc();
    for piece in [1u32, 7, 65_536] {
        for (limit, want, rest) in [
            (0usize, 0usize, 10usize),
            (7, 7, 3),
            (10, 10, 0),
            (11, 10, 0),
        ] {
            assert!(rt; piece > 0 && want <= 10);
            let mut source = source(alloc, piece, &[])?;
            let bytes = read_up_to(alloc, &mut source, limit)?;
            assert_eq!(rt;
                bytes.as_slice(),
                &TEXT[..want],
                "limit {limit} in pieces of {piece}"
            );
            let after = read_up_to(alloc, &mut source, 100)?;
            assert_eq!(rt;
                after.len(),
                rest,
                "after limit {limit} in pieces of {piece}"
            );
        }
    }
    Ok(())
}

#[test]
fn reads_on_after_a_fault(rt: HostRuntime) -> Result<(), Fail> {
    let alloc = rt.alloc();
    for (call, lost) in [(1u64, 0usize), (2, 4), (3, 8), (4, 10)] {
        assert!(rt; lost <= 10);
        let mut source = source(alloc, 4, &[call, 9])?;
        let fault = read_up_to(alloc, &mut source, 100).err();
        assert_eq!(rt; fault, Some(ReadFault::Failed), "call {call}");
        let bytes = read_up_to(alloc, &mut source, 100)?;
        assert_eq!(rt; bytes.as_slice(), &TEXT[lost..], "call {call}");
    }
    Ok(())
}

#[test]
fn writes_all_in_any_pieces(rt: HostRuntime) -> Result<(), Fail> {
    let alloc = rt.alloc();
    for piece in [1u32, 7, 65_536] {
        assert!(rt; piece > 0);
        let mut sink = sink(alloc, piece, &[])?;
        assert_eq!(rt; write_all(&mut sink, TEXT), Ok(()), "pieces of {piece}");
        assert_eq!(rt; sink.written(), TEXT, "pieces of {piece}");
    }
    Ok(())
}

#[test]
fn writes_on_after_a_fault(rt: HostRuntime) -> Result<(), Fail> {
    let alloc = rt.alloc();
    for (call, want) in [(1u64, b"ab".as_slice()), (2, b"0123ab"), (3, b"01234567ab")] {
        let mut sink = sink(alloc, 4, &[call, 9])?;
        assert_eq!(rt;
            write_all(&mut sink, TEXT),
            Err(WriteFault::Failed),
            "call {call}"
        );
        assert_eq!(rt; write_all(&mut sink, b"ab"), Ok(()), "call {call}");
        assert_eq!(rt; sink.written(), want, "call {call}");
    }
    Ok(())
}

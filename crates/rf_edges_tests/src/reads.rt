// Sources in memory, read whole.
use crate::fakes::{bytes_of, same};
use rf_edges::{Failed, MemSource, ReadError, Source, SureSource, read_all};
use std::test::Fail;

#[test]
fn short_reads_at_block_borders_end_nothing(rt: HostRuntime) -> Result<(), Fail> {
    for size in [0, 1, 65535, 65536, 65537, 131072, 131073] {
        let bytes = bytes_of(rt.alloc(), size)?;
        for step in [7usize, 65535, 65536, 65537, 200000] {
            let mut source = SureSource::new(bytes.clone()?, step);
            let read = read_all(rt.alloc(), &mut source, 200000)?;
            same(&rt, (size, step), read.as_slice(), bytes.as_slice());
        }
    }
    Ok(())
}

#[test]
fn the_limit_is_allowed_and_one_more_is_too_long(rt: HostRuntime) -> Result<(), Fail> {
    for limit in [0usize, 1, 65535, 65536, 65537] {
        let bytes = bytes_of(rt.alloc(), limit + 3)?;
        let exact = bytes_of(rt.alloc(), limit)?;
        let mut source = MemSource::new(exact.clone()?, 40000, Vec::new(rt.alloc()));
        let read = read_all(rt.alloc(), &mut source, limit)?;
        same(&rt, limit, read.as_slice(), exact.as_slice());

        let mut source = MemSource::new(bytes, 40000, Vec::new(rt.alloc()));
        let refused = read_all(rt.alloc(), &mut source, limit).err();
        same(&rt, limit, refused, Some(ReadError::TooLong));
        let rest = read_all(rt.alloc(), &mut source, limit + 5)?;
        same(&rt, limit, rest.len(), 2);
    }
    Ok(())
}

#[test]
fn a_fault_in_mid_stream_stays_a_fault(rt: HostRuntime) -> Result<(), Fail> {
    let bytes = bytes_of(rt.alloc(), 3000)?;
    for (call, taken) in [(1u32, 0usize), (2, 1000), (3, 2000), (4, 3000)] {
        let fails = vec![in rt.alloc(); call]?;
        let mut source = MemSource::new(bytes.clone()?, 1000, fails);
        let refused = read_all(rt.alloc(), &mut source, 5000).err();
        same(&rt, call, refused, Some(ReadError::Fault));
        let rest = read_all(rt.alloc(), &mut source, 5000)?;
        let wanted = bytes.get(taken..).ok_or("short")?;
        same(&rt, call, rest.as_slice(), wanted);
    }
    Ok(())
}

#[test]
fn nothing_is_read_behind_the_end(rt: HostRuntime) -> Result<(), Fail> {
    let bytes = bytes_of(rt.alloc(), 3000)?;
    let fails = vec![in rt.alloc(); 5u32]?;
    let mut source = MemSource::new(bytes.clone()?, 1000, fails);
    let read = read_all(rt.alloc(), &mut source, 5000)?;
    same(&rt, "read", read.as_slice(), bytes.as_slice());
    same(&rt, "read next", source.read(&mut [0u8; 9]), Err(Failed));
    Ok(())
}

#[test]
fn a_source_in_memory_fails_at_the_listed_calls(rt: HostRuntime) -> Result<(), Fail> {
    let bytes = bytes_of(rt.alloc(), 5)?;
    let fails = vec![in rt.alloc(); 2u32, 4]?;
    let mut source = MemSource::new(bytes, 2, fails);
    let mut buf = [9u8; 3];
    let mut answers = Vec::new(rt.alloc());
    for _ in 0..6 {
        answers.push(source.read(&mut buf))?;
    }
    let expected = [Ok(2), Err(Failed), Ok(2), Err(Failed), Ok(1), Ok(0)];
    same(&rt, "answers", answers.as_slice(), expected.as_slice());
    same(&rt, "buffer", buf.as_slice(), [4, 3, 9].as_slice());
    Ok(())
}

#[test]
fn refusals_are_worded(rt: HostRuntime) -> Result<(), Fail> {
    let text = format!(in rt.alloc(); "{}; {}", ReadError::Fault, ReadError::TooLong)?;
    assert_eq!(rt;
        text.as_str(),
        "the source failed; the source is longer than the limit"
    );
    Ok(())
}

// Shelves in memory.
ghost use Rattle.std.specs.Prelude.{◌<◌};

use crate::fakes::same;
use rf_edges::{MemShelf, Shelf, ShelfError, SureShelf};
use std::alloc::{AllocError, Global};
use std::test::Fail;

fn two_files(alloc: Global) -> Result<Vec<(String, Vec<u8>)>, AllocError> {
    let mut files = Vec::new(alloc);
    files.push((String::from_str(alloc, "a")?, b"alpha".to_vec(alloc)?))?;
    files.push((String::from_str(alloc, "empty")?, Vec::new(alloc)))?;
    Ok(files)
}

// What a shelf answers, and what it leaves.
fn read<H: Shelf>(
    alloc: Global,
    shelf: &mut H,
    name: &str,
    limit: usize,
) -> (Result<(), ShelfError>, Vec<u8>)
    requires { limit < 1000 }
{
    let mut into = Vec::new(alloc);
    let answer = shelf.read_file(name, limit, &mut into);
    (answer, into)
}

#[test]
fn files_are_found_by_name(rt: HostRuntime) -> Result<(), Fail> {
    let mut shelf = MemShelf::new(two_files(rt.alloc())?, Vec::new(rt.alloc()));
    for (name, limit, answer, left) in [
        ("a", 5usize, Ok(()), "alpha"),
        ("a", 4, Err(ShelfError::TooLong), "alpha"),
        ("a", 1, Err(ShelfError::TooLong), "al"),
        ("empty", 0, Ok(()), ""),
        ("b", 9, Err(ShelfError::Failed), ""),
        ("a", 9, Ok(()), "alpha"),
    ] {
        let got = read(rt.alloc(), &mut shelf, name, limit);
        same(&rt, (name, limit), got.0, answer);
        same(&rt, (name, limit), got.1.as_slice(), left.as_bytes());
    }
    Ok(())
}

#[test]
fn listed_calls_fail_and_others_do_not(rt: HostRuntime) -> Result<(), Fail> {
    let fails = vec![in rt.alloc(); 2u32]?;
    let mut shelf = MemShelf::new(two_files(rt.alloc())?, fails);
    for (call, answer, left) in [
        (1, Ok(()), "alpha"),
        (2, Err(ShelfError::Failed), ""),
        (3, Ok(()), "alpha"),
    ] {
        let got = read(rt.alloc(), &mut shelf, "a", 9);
        same(&rt, call, got.0, answer);
        same(&rt, call, got.1.as_slice(), left.as_bytes());
    }
    Ok(())
}

#[test]
fn each_name_is_on_a_sure_shelf(rt: HostRuntime) -> Result<(), Fail> {
    let mut shelf = SureShelf::new(b"same".to_vec(rt.alloc())?);
    for name in ["", "x"] {
        let got = read(rt.alloc(), &mut shelf, name, 4);
        same(&rt, name, got.0, Ok(()));
        same(&rt, name, got.1.as_slice(), b"same".as_slice());
        let got = read(rt.alloc(), &mut shelf, name, 3);
        same(&rt, name, got.0, Err(ShelfError::TooLong));
        same(&rt, name, got.1.as_slice(), b"same".as_slice());
    }
    Ok(())
}

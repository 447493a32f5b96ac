ghost use Rattle.std.specs.Prelude.{◌≡◌, ◌≤◌, IfOk};
ghost use Rattle.cov_io.specs.Entry.{entry_of};

use super::*;
use std::alloc::Global;
use std::test;

const TEXT: &[u8] = b"POLYGON ((0 0, 1 0, 1 1, 0 0))";

fn file(alloc: Global, name: &str, bytes: &[u8]) -> Result<ShelfFile, test::Fail>
    ensures { IfOk result (λ f. entry_of f ≡ record { name = name.now; bytes = bytes.now }) }
{
    Ok(ShelfFile {
        name: String::from_str(alloc, name)?,
        bytes: bytes.to_vec(alloc)?,
    })
}

// A shelf with the files `in`, `long` and `out`, on which this call is to fail.
fn shelf(alloc: Global, call: Call, nth: u32, piece: usize) -> Result<Shelf, test::Fail>
    requires { 1 ≤ piece }
{
    let mut files = Vec::new(alloc);
    files.push(file(alloc, "in", b"abcd")?)?;
    files.push(file(alloc, "long", b"abcde")?)?;
    files.push(file(alloc, "out", b"old")?)?;
    let fails = vec![in alloc; Fail { call, nth }]?;
    Ok(Shelf::new(alloc, files, fails, piece, 64)?)
}

fn holds(shelf: &Shelf, name: &str, bytes: &[u8]) -> bool {
    match shelf.held(name) {
        Some(held) => held == bytes,
        None => false,
    }
}

#[test]
fn slurp_takes_a_file_up_to_its_limit(rt: HostRuntime) -> Result<(), test::Fail> {
    let mut shelf = shelf(rt.alloc(), Call::Read, 9, 3)?;
    let bytes = slurp(rt.alloc(), &mut shelf, "in", 4)?;
    assert!(rt; bytes.as_slice() == b"abcd".as_slice());
    let long = slurp(rt.alloc(), &mut shelf, "long", 4);
    assert!(rt; matches!(long, Err(SlurpError::TooLong)));
    let missing = slurp(rt.alloc(), &mut shelf, "none", 4);
    assert!(rt; matches!(missing, Err(SlurpError::ReadFault)));
    Ok(())
}

#[test]
fn a_read_that_fails_in_mid_file_is_a_read_fault(rt: HostRuntime) -> Result<(), test::Fail> {
    for nth in 0..4 {
        let mut shelf = shelf(rt.alloc(), Call::Read, nth, 2)?;
        let answer = slurp(rt.alloc(), &mut shelf, "in", 9);
        assert!(rt; answer.is_ok() == (nth == 3), "read {nth}");
        assert!(rt; holds(&shelf, "in", b"abcd"));
    }
    Ok(())
}

#[test]
fn a_write_that_fails_leaves_the_bytes_before_it(rt: HostRuntime) -> Result<(), test::Fail> {
    let cases: [(Call, u32, usize); 5] = [
        (Call::Create, 0, 0),
        (Call::Write, 0, 0),
        (Call::Write, 1, 16),
        (Call::Write, 2, 30),
        (Call::Close, 0, 30),
    ];
    for (call, nth, left) in cases {
        let mut shelf = shelf(rt.alloc(), call, nth, 16)?;
        let answer = spill(&mut shelf, "out", TEXT);
        assert!(rt; answer.is_ok() == (nth == 2));
        let expected = if call == Call::Create {
            b"old".as_slice()
        } else {
            &TEXT[..left]
        };
        assert!(rt; holds(&shelf, "out", expected), "{call:?} {nth}");
    }
    Ok(())
}

#[test]
fn the_disk_answers_for_devices(rt: HostRuntime) -> Result<(), test::Fail> {
    let mut disk = Disk::new(rt.clone()?);
    let empty = slurp(rt.alloc(), &mut disk, "/dev/null", 9)?;
    assert!(rt; empty.is_empty());
    let endless = slurp(rt.alloc(), &mut disk, "/dev/zero", 9);
    assert!(rt; matches!(endless, Err(SlurpError::TooLong)));
    let missing = slurp(rt.alloc(), &mut disk, "/no/such/file", 9);
    assert!(rt; matches!(missing, Err(SlurpError::ReadFault)));
    assert!(rt; spill(&mut disk, "/dev/null", TEXT).is_ok());
    assert!(rt; spill(&mut disk, "/dev/full", TEXT).is_err());
    assert!(rt; spill(&mut disk, "/no/such/file", TEXT).is_err());
    Ok(())
}

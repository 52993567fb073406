//! The devices in memory fail at their listed calls alone.

use super::*;
use std::test::Fail;

#[test]
fn drops_are_counted_and_any_other_fate_ends_the_row(rt: HostRuntime) {
    for (fate, row, drops) in [
        (Fate::Drop, 4, 4),
        (Fate::Deliver, 0, 3),
        (Fate::Twice, 0, 3),
        (Fate::Hold, 0, 3),
    ] {
        assert_eq!(rt; (fate.row_after(3), fate.drops_after(3)), (row, drops));
    }
    let most = 0xffff_ffff_ffff_ffff;
    for (count, more) in [(most - 1, most), (most, most)] {
        let fate = Fate::Drop;
        assert_eq!(rt;
            (fate.row_after(count), fate.drops_after(count)),
            (more, more)
        );
    }
}

#[test]
fn a_read_takes_from_the_front_and_fails_where_listed(rt: HostRuntime) -> Result<(), Fail> {
    let alloc = rt.alloc();
    let mut source = MemSource::new([7, 8, 9].to_vec(alloc)?, [2].to_vec(alloc)?);
    let mut buf = [0u8; 2];
    assert_eq!(rt; source.read(&mut buf), Ok(2));
    assert_eq!(rt; buf, [7, 8]);
    assert_eq!(rt; source.read(&mut buf), Err(Failed));
    assert_eq!(rt; source.read(&mut buf), Ok(1));
    assert_eq!(rt; buf[0], 9);
    assert_eq!(rt; source.read(&mut buf), Ok(0));
    Ok(())
}

#[test]
fn a_write_is_kept_and_fails_where_listed(rt: HostRuntime) -> Result<(), Fail> {
    let alloc = rt.alloc();
    let mut sink = MemSink::new(alloc, [1, 3].to_vec(alloc)?);
    assert_eq!(rt; sink.write(b"ab"), Err(SinkFault::Failed));
    assert_eq!(rt; sink.write(b"ab"), Ok(2));
    assert_eq!(rt; sink.write(b"cd"), Err(SinkFault::Failed));
    assert_eq!(rt; sink.write(b"e"), Ok(1));
    assert_eq!(rt; sink.bytes(), b"abe".as_slice());
    Ok(())
}

#[test]
fn a_file_is_read_by_its_name_and_fails_where_listed(rt: HostRuntime) -> Result<(), Fail> {
    let alloc = rt.alloc();
    let mut files = Vec::new(alloc);
    files.push((format!(in alloc; "a")?, [1, 2, 3].to_vec(alloc)?))?;
    files.push((
        format!(in alloc; "long")?,
        vec![in alloc; 7u8; MAX_READ + 1]?,
    ))?;
    let mut files = MemFiles::new(files, [2].to_vec(alloc)?);
    let read = files.read_file(alloc, "a").map_err(|_| "a file")?;
    assert_eq!(rt; read.as_slice(), [1, 2, 3].as_slice());
    assert!(rt; files.read_file(alloc, "a").is_err());
    let long = files.read_file(alloc, "long").map_err(|_| "a file")?;
    assert_eq!(rt; long.len(), MAX_READ);
    assert_eq!(rt; files.read_file(alloc, "b").err(), Some(FileFault::Failed));
    Ok(())
}

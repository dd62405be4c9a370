use sdcv_base::Name;
use std::alloc::{AllocError, Global};
use std::process::Abort;
use texts::{NameTable, closed_by};

// Names in the order in which they are added, and whether each is new.
const ADDED: &[(&str, bool)] = &[("clk", true), ("d", true), ("clk", false)];

// The places afterwards, once `q` and `d` have been added too: three names, and one that is not there.
const PLACES: &[(&str, usize)] = &[("clk", 0), ("d", 1), ("q", 2), ("y", 3)];

fn named(alloc: Global, names: &[&str]) -> Result<Vec<Name>, AllocError> {
    let mut found = Vec::new(alloc);
    for name in names {
        found.push(Name::new(alloc, name.as_bytes())?)?;
    }
    Ok(found)
}

fn add_each(rt: &impl Abort, alloc: Global, table: &mut NameTable) -> Result<(), AllocError> {
    for (name, fresh) in ADDED {
        let name = Name::new(alloc, name.as_bytes())?;
        assert_eq!(rt; table.add(alloc, &name)?, *fresh);
    }
    Ok(())
}

fn check_places(rt: &impl Abort, alloc: Global, table: &NameTable) -> Result<(), AllocError> {
    for (name, place) in PLACES {
        let name = Name::new(alloc, name.as_bytes())?;
        assert_eq!(rt; table.place(&name), *place);
        assert_eq!(rt; table.contains(&name), *place < 3);
    }
    Ok(())
}

fn check_names(rt: &impl Abort, alloc: Global, table: &NameTable) -> Result<(), AllocError> {
    let names = table.names(alloc)?;
    assert_eq!(rt; names.len(), 3);
    assert_eq!(rt; names[2].as_bytes(), b"q".as_slice());
    Ok(())
}

// Five names, of which two stand twice: places and answers by hand.
#[test]
fn a_table_holds_each_name_once(rt: HostRuntime) -> Result<(), AllocError> {
    let mut table = NameTable::new(rt.alloc());
    add_each(&rt, rt.alloc(), &mut table)?;
    let more = named(rt.alloc(), &["q", "d"])?;
    assert!(rt; !table.add_all(rt.alloc(), &more)?);
    check_places(&rt, rt.alloc(), &table)?;
    check_names(&rt, rt.alloc(), &table)
}

// The length up to and with the mark that closes a comment, by hand.
#[test]
fn two_bytes_close_a_comment(rt: HostRuntime) {
    assert_eq!(rt; closed_by(b" a * / **/*/", b'*', b'/'), Some(10));
    assert_eq!(rt; closed_by(b"* /", b'*', b'/'), None);
}

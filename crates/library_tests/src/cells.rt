//! Cells by name.
use cell_types::builtin;
use std::alloc::AllocError;

// Places in the table: TIE0 first, ICG last of 25.
const PLACES: &[(&[u8], Option<usize>)] = &[
    (b"TIE0", Some(0)),
    (b"AND2", Some(4)),
    (b"SDFFC", Some(23)),
    (b"ICG", Some(24)),
    (b"SDFF", None),
    (b"", None),
];

#[test]
fn built_in_cells_are_found_by_name(rt: HostRuntime) -> Result<(), AllocError> {
    let library = builtin(rt.alloc())?;
    for (name, want) in PLACES {
        assert_eq!(rt; library.find(name), *want);
    }
    Ok(())
}

//! What developers see of the faults that no row has.
use crate::expects::same;
use cell_lib::LibFault;
use lib_words::GroupFault;
use std::alloc::AllocError;

const SHOWN: &[(GroupFault, &str)] = &[
    (
        GroupFault::Syntax(7),
        "byte 7: no Liberty group goes on like this",
    ),
    (
        GroupFault::Deep(7),
        "byte 7: a group inside too many others",
    ),
    (GroupFault::Memory, "out of memory"),
];

#[test]
fn faults_are_shown(rt: HostRuntime) -> Result<(), AllocError> {
    let memory = LibFault::Memory;
    let shown = format!(in rt.alloc(); "{memory}")?;
    same(&rt, "memory", shown.as_str(), "out of memory");
    for (fault, want) in SHOWN {
        let shown = format!(in rt.alloc(); "{fault}")?;
        same(&rt, want, shown.as_str(), want);
    }
    Ok(())
}

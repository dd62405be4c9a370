//! The pairs that a mended script selects.
ghost use Rattle.std.specs.Prelude.{◌≡◌, ◌++◌, IfOk, OnOk};
ghost use Rattle.std.specs.List.{flat_map};
ghost use Rattle.mend_lines.specs.Lines.{of_class};
ghost use Rattle.mended_text.specs.Claims.{group_rows, part_rows};

use mend_groups::{EndClass, Group, Part, Row, is_end_class};
use mend_lines::is_whole;
use sdcv_base::Seq;
use std::alloc::{AllocError, Global};

// Adds the pairs whose ends are of the class.
fn add_class(class: EndClass, star: &Seq<Row>, rows: &mut Seq<Row>) -> Result<(), AllocError>
    ensures { OnOk result (rows.new ≡ rows.old ++ of_class class star.now) }
{
    for row in star.as_slice() {
        if is_end_class(class, row.class) {
            rows.push(*row)?;
        }
    }
    Ok(())
}

fn add_stars(class: EndClass, stars: &Seq<Seq<Row>>, rows: &mut Seq<Row>) -> Result<(), AllocError>
    ensures { OnOk result (rows.new ≡ rows.old ++ flat_map (of_class class) stars.now) }
{
    for star in stars.as_slice() {
        add_class(class, star, rows)?;
    }
    Ok(())
}

fn add_group(group: &Group, rows: &mut Seq<Row>) -> Result<(), AllocError>
    ensures { OnOk result (rows.new ≡ rows.old ++ group_rows group.now) }
{
    add_stars(EndClass::Regs, &group.stars, rows)?;
    add_stars(EndClass::Ports, &group.stars, rows)?;
    add_stars(EndClass::Sinks, &group.stars, rows)
}

fn add_groups(groups: &Seq<Group>, rows: &mut Seq<Row>) -> Result<(), AllocError>
    ensures { OnOk result (rows.new ≡ rows.old ++ flat_map group_rows groups.now) }
{
    for group in groups.as_slice() {
        add_group(group, rows)?;
    }
    Ok(())
}

/// Adds these pairs.
pub(crate) fn add_rows(part: &Seq<Row>, rows: &mut Seq<Row>) -> Result<(), AllocError>
    ensures { OnOk result (rows.new ≡ rows.old ++ part.now) }
{
    for row in part.as_slice() {
        rows.push(*row)?;
    }
    Ok(())
}

fn add_part(part: &Part, rows: &mut Seq<Row>) -> Result<(), AllocError>
    ensures { OnOk result (rows.new ≡ rows.old ++ part_rows part.now) }
{
    if is_whole(part) {
        add_rows(&part.rows, rows)
    } else {
        add_groups(&part.groups, rows)
    }
}

/// The pairs of the exceptions that stay, and those of the new commands, in the order of the script.
pub(crate) fn expected_rows(alloc: Global, parts: &[Part]) -> Result<Seq<Row>, AllocError>
    ensures { IfOk result (λ rows. rows ≡ flat_map part_rows parts.now) }
{
    let mut rows = Seq::new(alloc);
    for part in parts {
        add_part(part, &mut rows)?;
    }
    Ok(rows)
}

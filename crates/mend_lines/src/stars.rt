//! The starts and the ends of a group.
ghost use Rattle.std.specs.Prelude.{◌≡◌, ◌++◌, ◌∷◌, [], if◌then◌else◌, filter, take, IfOk, OnOk};
ghost use Rattle.mend_lines.specs.Lines as spec;

use crate::counts::is_named;
use mend_groups::{EndClass, Group, Row};
use sdcv_base::Seq;
use std::alloc::{AllocError, Global};

/// The first pair of each start of a group.
pub(crate) fn heads(alloc: Global, group: &Group) -> Result<Seq<Row>, AllocError>
    ensures { IfOk result (λ rows. rows ≡ spec.heads group.now.stars) }
{
    let mut rows = Seq::new(alloc);
    for place in 0..group.stars.len() {
        push_first(group.stars.item(place), &mut rows)?;
    }
    Ok(rows)
}

fn push_first(star: &Seq<Row>, rows: &mut Seq<Row>) -> Result<(), AllocError>
    ensures { OnOk result (rows.new ≡ rows.old ++ take 1 star.now) }
{
    if star.len() != 0 {
        rows.push(star.at(0))?;
    }
    Ok(())
}

/// The pairs of the first start of a group whose ends are of a class, each end once.
pub(crate) fn ends_in(alloc: Global, class: EndClass, group: &Group) -> Result<Seq<Row>, AllocError>
    ensures { IfOk result (λ rows. rows ≡ spec.ends_in class group.now) }
{
    if group.stars.len() == 0 {
        Ok(Seq::new(alloc))
    } else {
        named_in(alloc, class, group.stars.item(0))
    }
}

fn named_in(alloc: Global, class: EndClass, star: &Seq<Row>) -> Result<Seq<Row>, AllocError>
    ensures { IfOk result (λ rows. rows ≡ filter (spec.is_named class) star.now) }
{
    let mut rows = Seq::new(alloc);
    for place in 0..star.len() {
        push_if(class, star.at(place), &mut rows)?;
    }
    Ok(rows)
}

fn push_if(class: EndClass, row: Row, rows: &mut Seq<Row>) -> Result<(), AllocError>
    ensures { OnOk result (rows.new ≡ rows.old ++ (if spec.is_named class row then row ∷ [] else [])) }
{
    if is_named(class, &row) {
        rows.push(row)?;
    }
    Ok(())
}

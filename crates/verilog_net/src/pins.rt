//! The pins of an instance, no two of which have one name.
ghost use Rattle.std.specs.Prelude.{◌≡◌, ◌++◌, ◌∷◌, [], List, ℕ, map};
ghost use Rattle.texts.specs.Names.{is_among};
ghost use Rattle.texts.specs.Rules.{Gives};
ghost use Rattle.verilog_scope.specs.Fails.{Fails};
ghost use Rattle.verilog_scope.specs.Folds.{fold_ok};
ghost use Rattle.verilog_scope.specs.Decls.{with_new};

use netlist_types::Conn;
use sdcv_base::Name;
use std::alloc::Global;
use texts::NameTable;
use verilog_scope::{VerFault, add_one};
use verilog_syntax::ConnDecl;

/// What connects a pin.
pub trait Pinned {
    ghost pin: { Self → List ℕ };

    fn pin(&self) -> &Name
        ensures { result.now ≡ pin self.now };
}

impl Pinned for ConnDecl {
    ghost pin = { λ c. c.pin };

    fn pin(&self) -> &Name {
        &self.pin
    }
}

impl Pinned for Conn {
    ghost pin = { λ c. c.pin };

    fn pin(&self) -> &Name {
        &self.pin
    }
}

/// An instance of no more pins than these has them compared with each other.
const FEW: usize = 8;

/// Checks that no pin is named twice.
pub fn check_pins<T: Pinned>(alloc: Global, list: &[T]) -> Result<(), VerFault>
    ensures { Gives Fails (λ _. map T.pin list.now) result (fold_ok with_new [] (map T.pin list.now)) }
{
    if list.len() <= FEW {
        check_few(alloc, list)
    } else {
        check_many(alloc, list)
    }
}

fn check_few<T: Pinned>(alloc: Global, list: &[T]) -> Result<(), VerFault>
    ensures { Gives Fails (λ _. map T.pin list.now) result (fold_ok with_new [] (map T.pin list.now)) }
{
    for (place, conn) in list.iter().enumerate() {
        check_pin(alloc, &list[..place], conn.pin())?;
    }
    Ok(())
}

fn check_many<T: Pinned>(alloc: Global, list: &[T]) -> Result<(), VerFault>
    ensures { Gives Fails (λ _. map T.pin list.now) result (fold_ok with_new [] (map T.pin list.now)) }
{
    let mut names = NameTable::new(alloc);
    for conn in list {
        add_one(alloc, &mut names, conn.pin())?;
    }
    Ok(())
}

/// Checks that a pin is none of those before it.
fn check_pin<T: Pinned>(alloc: Global, before: &[T], pin: &Name) -> Result<(), VerFault>
    ensures { Gives Fails (λ _. map T.pin before.now ++ pin.now ∷ []) result (with_new (map T.pin before.now) pin.now) }
{
    if has_pin(before, pin) {
        Err(VerFault::TwiceName(pin.copy(alloc)?))
    } else {
        Ok(())
    }
}

fn has_pin<T: Pinned>(list: &[T], pin: &Name) -> bool
    ensures { result ≡ is_among pin.now (map T.pin list.now) }
{
    for conn in list {
        if *pin == *conn.pin() {
            return true;
        }
    }
    false
}

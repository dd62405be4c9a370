//! A stack of values that contracts see from its top down.
ghost use Rattle.std.specs.Prelude.{◌≡◌, [], ◌∷◌, OnOk, OnErr, IfSome, IfNone, Some, None, slice_get};

use std::alloc::{AllocFailed, Global};
use std::marker::Model;

/// A stack, the top first.
#[derive(Drop)]
pub struct Stack<T> {
    items: Vec<T>,
}

impl<T> Model for Stack<T> {
    ghost use Rattle.std.specs.Prelude.{List, reverse};

    ghost Value = { List T };

    ghost view = { λ s. reverse s.items.items };
}

impl<T> Stack<T> {
    /// The empty stack. It takes no memory.
    pub fn new(alloc: Global) -> Stack<T>
        ensures { result ≡ [] }
    {
        Stack {
            items: Vec::new(alloc),
        }
    }

    /// Puts a value on top.
    pub fn push(&mut self, value: T) -> Result<(), AllocFailed<T>>
        ensures ok { OnOk result (self.new ≡ value ∷ self.old) }
        ensures err { OnErr result (self.new ≡ self.old) }
    {
        self.items.push(value)
    }

    /// Takes the value on top.
    pub fn pop(&mut self) -> Option<T>
        ensures some { IfSome result (λ x. self.old ≡ x ∷ self.new) }
        ensures none { IfNone result (self.old ≡ []) }
        ensures left { IfNone result (self.new ≡ []) }
    {
        self.items.pop()
    }
}

impl<T: Copy> Stack<T> {
    /// The value on top, if there is one.
    pub fn top(&self) -> Option<T>
        ensures some { IfSome result (λ x. slice_get self.now 0 ≡ Some x) }
        ensures none { IfNone result (self.now ≡ []) }
    {
        self.items.last().copied()
    }
}

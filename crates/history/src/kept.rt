//! A `Vec`'s own methods, in a module where no trait's methods hide them.

ghost use Rattle.std.specs.Prelude.{◌≡◌, ◌+◌, ◌≤◌, [], ◌∷◌, ◌++◌, OnOk};
ghost use Rattle.std.specs.Vec.{vec_len, vec_capacity};

use std::alloc::AllocError;

pub(crate) fn reserve_in<T>(list: &mut Vec<T>, more: usize) -> Result<(), AllocError>
    ensures items { list.new.items ≡ list.old.items }
    ensures ok { OnOk result (vec_len list.new + more ≤ vec_capacity list.new) }
{
    list.reserve(more)
}

pub(crate) fn push_in<T>(list: &mut Vec<T>, item: T)
    requires room { vec_len list.old + 1 ≤ vec_capacity list.old }
    ensures items { list.new.items ≡ list.old.items ++ item ∷ [] }
{
    list.push_reserved(item);
}

//! A list of which code keeps nothing.

ghost use Rattle.std.specs.Prelude.{◌≡◌, List, [], ◌∷◌, ◌++◌};
ghost use Rattle.std.specs.Borrow.{ftrue};

use std::marker::{Model, PhantomData};

/// A list that takes no memory: contracts see its items, and no code can. No call of it takes
/// memory either.
///
/// Source: this project.
#[derive(Drop)]
pub struct Unkept<T> {
    of: PhantomData<T>,
    pub ghost items: { List T },
}

impl<T> Model for Unkept<T> {
    ghost also_owns = { λ _. ftrue };
}

// It owns nothing.
unsafe impl<T: Send> Send for Unkept<T> {}

impl<T> Unkept<T> {
    /// The empty list.
    pub fn new() -> Unkept<T>
        ensures { result.items ≡ [] }
    {
        Unkept { of: PhantomData }
    }

    /// The list that the caller names in its proof, which no code holds.
    pub fn told() -> Unkept<T>
        ghost list: { List T }
        ensures { result.items ≡ list }
    {
        Unkept { of: PhantomData }
    }

    /// The list with one item behind it, which stays the caller's.
    pub fn with(&self, item: &T) -> Unkept<T>
        ensures { result.items ≡ self.now.items ++ item.now ∷ [] }
    {
        Unkept { of: PhantomData }
    }

    /// Both lists, one behind the other.
    pub fn joined(&self, more: &Unkept<T>) -> Unkept<T>
        ensures { result.items ≡ self.now.items ++ more.now.items }
    {
        Unkept { of: PhantomData }
    }

    /// The items of a list that stays the caller's. Costs a step for each.
    pub fn of(items: &[T]) -> Unkept<T>
        ensures { result.items ≡ items.now }
    {
        let mut made = Unkept::new();
        for item in items {
            made = made.with(item);
        }
        made
    }

    /// One more item, behind the others.
    pub fn push(&mut self, item: T)
    where
        T: Drop,
        ensures { self.new.items ≡ self.old.items ++ item ∷ [] }
    {
        *self = self.with(&item);
    }
}

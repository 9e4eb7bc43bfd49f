//! A stack, which is a list whose first element is on top.
ghost use Rattle.std.specs.Prelude.{◌≡◌, [], ◌∷◌, length, MatchOption, IfOk};
ghost use Rattle.f77_structure.specs.Lists.{first_of, is_none_of};

use fx_lists::List;
use std::alloc::{AllocError as Memory, Global};
use std::marker::Model;

/// A `Vec` that contracts see as the list of its elements, the last one first.
#[derive(Debug, Drop)]
pub struct Stack<T> {
    items: Vec<T>,
}

impl<T> Model for Stack<T> {
    ghost use Rattle.std.specs.Prelude.{List as Elements, reverse};

    ghost Value = { Elements T };

    ghost view = { λ it. reverse it.items.items };
}

impl<T> Stack<T> {
    /// The empty stack. Takes no memory.
    pub fn new(alloc: Global) -> Stack<T>
        ensures { result ≡ [] }
    {
        Stack {
            items: Vec::new(alloc),
        }
    }

    /// How many elements it has.
    pub fn len(&self) -> usize
        ensures { result ≡ length self.now }
    {
        self.items.len()
    }

    /// Whether it has no element.
    #[tactic(auto, using(crate::proofs::StackLemmas::empties))]
    pub fn is_empty(&self) -> bool
        ensures { result ≡ is_none_of self.now }
    {
        match self.items.last() {
            None => true,
            Some(_) => false,
        }
    }

    /// Takes the first element away; None where the stack is empty.
    pub fn pop(&mut self) -> Option<T>
        ensures { MatchOption result ((self.old ≡ []) × (self.new ≡ [])) (λ first. self.old ≡ first ∷ self.new) }
    {
        self.items.pop()
    }
}

impl<T: Copy> Stack<T> {
    /// A copy of the first element; None where the stack is empty.
    #[tactic(auto, using(crate::proofs::StackLemmas::stack_steps))]
    pub fn first(&self) -> Option<T>
        ensures { result ≡ first_of self.now }
    {
        self.items.last().copied()
    }
}

impl<T: Drop> Stack<T> {
    /// The stack with an element before the others.
    pub fn with_first(self, item: T) -> Result<Stack<T>, Memory>
        ensures { IfOk result (λ stack. stack ≡ item ∷ self) }
    {
        let Stack { mut items } = self;
        items.push(item)?;
        Ok(Stack { items })
    }
}

/// The elements of a list in their order, the first one on top. Takes no memory.
#[tactic(auto, using(crate::proofs::StackLemmas::stack_steps))]
pub fn stack_of<T>(list: List<T>) -> Stack<T>
    ensures { result ≡ list }
{
    let mut items = list.into_vec();
    items.reverse();
    Stack { items }
}

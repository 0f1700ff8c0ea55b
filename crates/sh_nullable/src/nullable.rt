//! A pointer that owns its value, or null. The functions here and the two marks have proofs by hand, since no tactic
//! knows what a raw pointer owns.
ghost use Rattle.std.specs.Prelude.{◌≡◌, true};
ghost use Rattle.std.specs.Coded.{coded_option};
ghost use Rattle.std.specs.declared.option.Option.{Option};
ghost use Rattle.std.specs.declared.option.Option.TheVariants.{None, Some};
ghost use base.Fml.{ftrue};
ghost use Rattle.sh_nullable.specs.Owning.{nullable_owns, has_value};

use std::alloc::Allocator;
use std::marker::Model;
use std::ptr::null_mut;

/// A pointer that owns its value, or null. A contract sees the value, if there is one.
///
/// It has no test for null: its owner knows whether it is full by another value, such as a word beside it. For the same
/// reason it does not free its value when it is dropped. One that owns a value must be opened by `into_box` first, or
/// its memory is lost.
#[repr(C)]
#[derive(Drop)]
pub struct NullableBox<T, A: Allocator> {
    pub at: *mut T,
    pub alloc: A,
    pub ghost value: { Option T } by { coded_option T.code },
}

impl<T, A: Allocator> Model for NullableBox<T, A> {
    ghost also_owns = { λ s. nullable_owns (A.dealloc_token s.alloc) T.row s.at s.value };

    // A `&` to it holds nothing.
    ghost also_shares = { λ _ _ _. ftrue };
}

impl<T, A: Allocator> NullableBox<T, A> {
    /// Null, which owns nothing. It takes no memory.
    pub fn empty(alloc: A) -> NullableBox<T, A>
        ensures { result.value ≡ None }
    {
        NullableBox {
            at: null_mut(),
            alloc,
        }
    }

    /// A pointer that owns what the box owned. It takes no memory.
    pub fn of(b: Box<T, A>) -> NullableBox<T, A>
    where
        T: Drop,
        ensures { result.value ≡ Some b.value }
    {
        let (at, alloc) = Box::into_raw_with_allocator(b);
        NullableBox { at, alloc }
    }

    /// Returns the box of a pointer that is known to own a value.
    pub fn into_box(self) -> Box<T, A>
        requires { has_value self.value ≡ true }
        ensures { self.value ≡ Some result.value }
    {
        let NullableBox { at, alloc } = self;
        unsafe { Box::from_raw(alloc, at) }
    }
}

// It may be sent to another thread if its value and its allocator may.
unsafe impl<T: Send, A: Allocator + Send> Send for NullableBox<T, A> {}

// A `&` to it shows nothing of its value, so it may be shared if its allocator may.
unsafe impl<T, A: Allocator + Sync> Sync for NullableBox<T, A> {}

#[cfg(test)]
mod tests {
    use super::*;
    use std::test::Fail;

    #[test]
    fn a_value_goes_in_and_comes_out(rt: HostRuntime) -> Result<(), Fail> {
        let alloc = rt.alloc();
        let full = NullableBox::of(Box::new(alloc, 7)?);
        let mut value = full.into_box();
        assert_eq!(rt; *value, 7);
        *value = 8;
        assert_eq!(rt; *NullableBox::of(value).into_box(), 8);
        Ok(())
    }

    #[test]
    fn null_is_dropped(rt: HostRuntime) -> Result<(), Fail> {
        drop(NullableBox::<u64, _>::empty(rt.alloc()));
        Ok(())
    }
}

//! The handle that a C caller holds: closed, or open on an instance. Only `handle_calls.rt` opens
//! and closes one. Its layout must stay that of `struct tsp_instance` in `bindings/c/tsp.h`.

ghost use Rattle.tsp_c.specs.Prelude.{option_map, None, Some, is_some, Option, IfOk, Open};
ghost use Rattle.std.specs.Prelude.{◌≡◌};
ghost use Rattle.std_alloc.specs.Box.Ownership.{box_owns};
ghost use Rattle.tsp_c.specs.Opened.{held_coded, open_of};

use std::alloc::{AllocError, Allocator, Global};
use std::boxed::Box;
use std::marker::Model;
use std::mem::replace;
use tsp_judge::Opened;

/// An open instance, or none. All bytes 0 are a closed handle.
#[repr(C)]
pub struct Handle {
    is_open: bool,
    pub loose: Loose,
    ghost tied: { is_open ≡ is_some loose.value },
}

impl Handle {
    /// A handle that is closed.
    pub(crate) fn closed(alloc: Global) -> Handle
        ensures { result.loose.value ≡ None }
    {
        Handle {
            is_open: false,
            loose: Loose::nothing(alloc),
        }
    }

    /// A handle that is open on an instance.
    pub(crate) fn of(opened: Box<Opened, Global>) -> Handle
        ensures { result.loose.value ≡ Some opened.value }
    {
        Handle {
            is_open: true,
            loose: Loose::of_parts(BoxParts::of(opened)),
        }
    }

    /// Closes the handle, and returns the instance on which it was open, if any.
    pub(crate) fn take(&mut self, alloc: Global) -> Option<Box<Opened, Global>>
        ensures value { option_map (λ b. b.value) result ≡ self.old.loose.value }
        ensures closed { self.new.loose.value ≡ None }
    {
        let Handle { is_open, loose } = replace(self, Handle::closed(alloc));
        if is_open {
            Some(loose.into_parts().into_box())
        } else {
            loose.end();
            None
        }
    }

    /// Opens a closed handle.
    pub(crate) fn put(&mut self, opened: Box<Opened, Global>)
        requires { self.old.loose.value ≡ None }
        ensures { self.new.loose.value ≡ Some opened.value }
    {
        let Handle { is_open: _, loose } = replace(self, Handle::of(opened));
        loose.end();
    }
}

// ---- an open instance in a box as its bare pointer, or NULL

/// A box for C, which can't name its type: its pointer, and ownership. It has no drop, so it must
/// be ended by hand.
#[repr(C)]
pub struct Loose {
    at: *mut u8,
    alloc: Global,
    pub ghost value: { Option Open } by { held_coded },
}

impl Model for Loose {
    ghost use Rattle.tsp_c.specs.Opened.{held_owns};

    ghost also_owns = { λ l. held_owns l.alloc l.at l.value };
}

impl Loose {
    /// The pointer NULL.
    pub(crate) fn nothing(alloc: Global) -> Loose
        ensures { result.value ≡ None }
    {
        Loose {
            at: std::ptr::null_mut(),
            alloc,
        }
    }

    /// Ends a NULL pointer, which owns nothing, without a drop.
    pub(crate) fn end(self)
        requires { self.value ≡ None }
    {
        let Loose { at: _, alloc: _ } = self;
    }

    /// The pointer of a box that was taken apart.
    pub(crate) fn of_parts(parts: BoxParts<Opened, Global>) -> Loose
        ensures { result.value ≡ Some parts.value }
    {
        let BoxParts { ptr, alloc } = parts;
        Loose {
            at: ptr as *mut u8,
            alloc,
        }
    }

    /// The parts of the box whose pointer this is.
    pub(crate) fn into_parts(self) -> BoxParts<Opened, Global>
        requires { self.value ≡ Some (open_of self.value) }
        ensures { result.value ≡ open_of self.value }
    {
        let Loose { at, alloc } = self;
        BoxParts {
            ptr: at as *mut Opened,
            alloc,
        }
    }
}

// ---- a box taken apart into its pointer and its allocator, and put together again

pub(crate) struct BoxParts<T, A: Allocator> {
    pub(crate) ptr: *mut T,
    pub(crate) alloc: A,
    pub ghost value: { T },
}

impl<T, A: Allocator> Model for BoxParts<T, A> {
    ghost also_owns = { λ p. box_owns (A.dealloc_token p.alloc) T.row p.ptr p.value };
}

impl<T, A: Allocator> BoxParts<T, A> {
    pub(crate) fn of(b: Box<T, A>) -> BoxParts<T, A>
    where
        T: Drop,
        ensures { result.value ≡ b.value }
    {
        let (ptr, alloc) = Box::into_raw_with_allocator(b);
        BoxParts { ptr, alloc }
    }

    pub(crate) fn into_box(self) -> Box<T, A>
        ensures { result.value ≡ self.value }
    {
        let BoxParts { ptr, alloc } = self;
        unsafe { Box::from_raw(alloc, ptr) }
    }
}

// ---- puts a value into a box, or returns `NoBox`, which no other call makes

/// Memory was refused for a box. Only [`in_box`] makes one, if std refused it.
#[derive(Drop)]
pub(crate) struct NoBox {
    error: AllocError,
}

/// Puts a value into a box, without looking at it.
///
/// # Errors
///
/// Out of memory; the value is dropped.
pub(crate) fn in_box<T: Drop>(alloc: Global, value: T) -> Result<Box<T, Global>, NoBox>
    ensures { IfOk result (λ boxed. boxed.value ≡ value) }
{
    match Box::new(alloc, value) {
        Ok(boxed) => Ok(boxed),
        Err(failed) => Err(NoBox {
            error: AllocError::from(failed),
        }),
    }
}

//! The functions without a depth, in two parts: what those with one stand on, and what writes.

ghost use Rattle.std.specs.Prelude.{◌≡◌, ◌++◌, OnOk, codes};
ghost use Rattle.ecd_cast.specs.Meaning.{calls_of};
ghost use Rattle.ecd_fixed_bytes.specs.Copier.{copy_bytes, CopiesBytes};
ghost use Rattle.ecd_emit.specs.Among.{AreNew, IsAmong};
ghost use Rattle.ecd_fixed_bytes.specs.Standing.{HeadWriterIsThere, HeadWriterMeans};
ghost use Rattle.ecd_rt.specs.Standing.{FrontIsThere, FrontMeans};
ghost use Rattle.ecd_rt.specs.Runtime.{front_functions, front_names, writing_functions, writing_names};

use ecd_cbuild::builder::Builder;
use ecd_fixed_bytes::{comparison, copier, head_writer, utf8_check};
use ecd_fixed_heads::{extents, heads};
use ecd_keyorder::Order;
use ecd_list::OutOfMemory;
use std::alloc::Global;

/// Puts what the functions with a depth stand on behind the builder's items, with the comparison for the order.
pub(crate) fn put_front(
    alloc: Global,
    order: Order,
    builder: &mut Builder,
) -> Result<(), OutOfMemory>
    requires { AreNew front_names builder.old }
    ensures items { OnOk result (builder.new ≡ builder.old ++ front_functions order) }
    ensures there { OnOk result (FrontIsThere builder.new) }
    ensures mean { OnOk result (FrontMeans order builder.new) }
{
    heads(alloc, builder)?;
    extents(alloc, builder)?;
    utf8_check(alloc, builder)?;
    comparison(alloc, order, builder)?;
    Ok(())
}

/// Puts the writer of heads and the copier behind the builder's items.
pub(crate) fn put_writing(alloc: Global, builder: &mut Builder) -> Result<(), OutOfMemory>
    requires { AreNew writing_names builder.old }
    ensures items { OnOk result (builder.new ≡ builder.old ++ writing_functions) }
    ensures writer_there { OnOk result (HeadWriterIsThere builder.new) }
    ensures copier_there { OnOk result (IsAmong copy_bytes builder.new) }
    ensures writer { OnOk result (HeadWriterMeans builder.new) }
    ensures copier { OnOk result (CopiesBytes (calls_of builder.new (codes "copy_bytes"))) }
{
    head_writer(alloc, builder)?;
    copier(alloc, builder)?;
    Ok(())
}

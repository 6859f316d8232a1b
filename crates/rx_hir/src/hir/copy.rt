//! Copies of expressions. A call goes as deep as the expression.
ghost use Rattle.std.specs.Prelude.{◌≡◌, IfOk};
ghost use Rattle.rx_class.specs.ClassViews.{class_view};
ghost use Rattle.rx_hir.specs.HirViews.{kind_view};

use super::{Capture, Hir, HirKind, Repetition};
use rx_class::{Class, ClassBytes, ClassUnicode};
use std::alloc::AllocError;

impl Clone for Hir {
    ghost use Rattle.std.specs.Prelude.{◌≡◌};

    ghost is_clone = { λ h copy. copy ≡ h };

    fn clone(&self) -> Result<Hir, AllocError> {
        copy_of(self)
    }
}

#[cycle(copy)]
fn copy_of(hir: &Hir) -> Result<Hir, AllocError>
    ensures { IfOk result (λ h. h ≡ hir.now) }
{
    let kind = copy_of_kind(&hir.kind)?;
    Ok(Hir {
        kind,
        properties: hir.properties,
    })
}

#[cycle(copy)]
fn copy_of_kind(kind: &HirKind) -> Result<HirKind, AllocError>
    ensures { IfOk result (λ k. kind_view k ≡ kind_view kind.now) }
{
    match kind {
        HirKind::Empty => Ok(HirKind::Empty),
        HirKind::Literal(bytes) => Ok(HirKind::Literal(Vec::from_slice(
            *bytes.allocator(),
            bytes,
        )?)),
        HirKind::Class(class) => Ok(HirKind::Class(copy_of_class(class)?)),
        HirKind::Look(look) => Ok(HirKind::Look(*look)),
        HirKind::Repetition(repetition) => Ok(HirKind::Repetition(Repetition {
            min: repetition.min,
            max: repetition.max,
            greedy: repetition.greedy,
            sub: copy_of_box(&repetition.sub)?,
        })),
        HirKind::Capture(capture) => Ok(HirKind::Capture(Capture {
            index: capture.index,
            name: capture.name.clone()?,
            sub: copy_of_box(&capture.sub)?,
        })),
        HirKind::Concat(subs) => Ok(HirKind::Concat(copy_of_all(subs)?)),
        HirKind::Alternation(subs) => Ok(HirKind::Alternation(copy_of_all(subs)?)),
    }
}

#[cycle(copy)]
fn copy_of_box(hir: &Box<Hir>) -> Result<Box<Hir>, AllocError>
    ensures { IfOk result (λ b. b.value ≡ hir.now.value) }
{
    let copy = copy_of(hir)?;
    Ok(Box::new(*Box::allocator(hir), copy)?)
}

#[cycle(copy)]
fn copy_of_all(subs: &Vec<Hir>) -> Result<Vec<Hir>, AllocError>
    ensures { IfOk result (λ v. v.items ≡ subs.now.items) }
{
    let mut all = Vec::with_capacity(*subs.allocator(), subs.len())?;
    for sub in subs {
        let copy = copy_of(sub)?;
        all.push(copy)?;
    }
    Ok(all)
}

fn copy_of_class(class: &Class) -> Result<Class, AllocError>
    ensures { IfOk result (λ c. class_view c ≡ class_view class.now) }
{
    match class {
        Class::Unicode(scalars) => Ok(Class::Unicode(scalars.clone()?)),
        Class::Bytes(bytes) => Ok(Class::Bytes(bytes.clone()?)),
    }
}

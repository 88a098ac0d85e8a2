//! The classes right below each type.
ghost use Rattle.std.specs.Prelude.{◌≡◌, ◌<◌, IfOk, Some, Contains, length, replicate, [], slice_get};
ghost use Rattle.std.specs.List.{All};
ghost use Rattle.app_model.specs.Ancestors.{IsParent};
ghost use Rattle.app_model.specs.Parts.{ClassParts};
ghost use Rattle.app_model.specs.Sound.{IsClassRow};
ghost use Rattle.call_targets.specs.Below.{AreChildren, Puts, right_below};

use app_model::{App, ClassRow};
use ns_base::{ClassNo, TypeNo};
use std::alloc::{AllocError, Global};
use std::marker::Model;

/// For each type the names of the classes that have it as superclass or interface.
#[derive(Drop)]
pub(crate) struct Children {
    lists: Vec<Vec<TypeNo>>,
}

impl Model for Children {
    ghost use Rattle.std.specs.Prelude.{List, map};
    ghost use Rattle.ns_base.specs.declared.rows.TypeNo.{TypeNo};

    ghost Value = { List (List TypeNo) };

    ghost view = { λ c. map (λ v. v.items) c.lists.items };
}

impl Children {
    fn none(alloc: Global, types: usize) -> Result<Children, AllocError>
        ensures { IfOk result (λ children. children ≡ replicate types []) }
    {
        let mut lists = Vec::with_capacity(alloc, types)?;
        for _place in 0..types {
            lists.push(Vec::new(alloc))?;
        }
        Ok(Children { lists })
    }

    // Puts a class under a type.
    fn put(&mut self, kind: TypeNo, class: TypeNo) -> Result<(), AllocError>
        requires { kind.0 < length self.old }
        ensures { IfOk result (λ done. Puts (λ t. t ≡ kind.0) class self.old self.new) }
    {
        self.lists[kind.0 as usize].push(class)?;
        Ok(())
    }

    fn put_super(&mut self, parent: Option<TypeNo>, class: TypeNo) -> Result<(), AllocError>
        requires { (t : _) → parent ≡ Some t → t.0 < length self.old }
        ensures { IfOk result (λ done. Puts (λ t. parent ≡ Some (record { 0 = t })) class self.old self.new) }
    {
        match parent {
            Some(kind) => self.put(kind, class),
            None => Ok(()),
        }
    }

    fn put_all(&mut self, kinds: &[TypeNo], class: TypeNo) -> Result<(), AllocError>
        requires { All (λ t. t.0 < length self.old) kinds.now }
        ensures { IfOk result (λ done. Puts (λ t. Contains kinds.now (record { 0 = t })) class self.old self.new) }
    {
        for i in 0..kinds.len() {
            self.put(kinds[i], class)?;
        }
        Ok(())
    }

    // Puts a class under its superclass and its interfaces.
    fn put_class(&mut self, app: &App, class: ClassNo) -> Result<(), AllocError>
        requires class { class.0 < length app.now.classes }
        requires types { length self.old ≡ length app.now.types }
        ensures { IfOk result (λ done. (row : ClassParts) → slice_get app.now.classes class.0 ≡ Some row → Puts (IsParent row) row.name self.old self.new) }
    {
        let row = app.class(class);
        self.put_super(row.parent, row.name)?;
        self.put_all(&row.interfaces, row.name)
    }

    /// The names of the classes right below a type.
    pub fn below(&self, kind: TypeNo) -> &[TypeNo]
        ensures { result.now ≡ right_below self.now kind.0 }
    {
        match self.lists.get(kind.0 as usize) {
            Some(list) => list.as_slice(),
            None => &[],
        }
    }
}

pub(crate) fn find_children(alloc: Global, app: &App) -> Result<Children, AllocError>
    ensures { IfOk result (AreChildren app.now.classes (length app.now.types)) }
{
    let mut children = Children::none(alloc, app.type_count() as usize)?;
    for c in 0..app.class_count() {
        children.put_class(app, ClassNo(c))?;
    }
    Ok(children)
}

//! The class hierarchy and its answers. None takes memory.
ghost use Rattle.std.specs.Prelude.{◌≡◌, ◌<◌, IfSome, Some, length, option_map, slice_get};
ghost use Rattle.std.specs.List.{list_any};
ghost use Rattle.ns_base.specs.declared.rows.ClassNo.{ClassNo};
ghost use Rattle.ns_base.specs.declared.rows.FieldNo.{FieldNo};
ghost use Rattle.app_model.specs.Hierarchy.{is_sub, may_be_sub, lookup_of, resolve_field_of, nearest};
ghost use Rattle.app_model.specs.Parts.{AppParts, ClassParts};
ghost use Rattle.class_graph.specs.Belongs.{IsClassGraph};
ghost use Rattle.class_graph.specs.Graph.{class_by, superclass_by, line_by, stands_by, leads_by, sub_by, unknown_by, may_be_by, member_in, method_by, field_by, is_unknown_kind};
ghost use Rattle.class_graph.specs.Answers.{found_number};

use crate::above::AboveRow;
use crate::kinds::KindRow;
use crate::members::Members;
use ns_base::{ClassNo, FieldNo, MethodNo, NameNo, ProtoNo, TypeNo};
use std::marker::Model;

/// What a call finds: a method of the application, or none of its methods.
#[derive(Clone, Copy, Debug, PartialEq, Eq)]
pub enum Found {
    App(MethodNo),
    Outside,
}

/// The class hierarchy of one application. Its answers are about that application.
#[derive(Drop)]
pub struct ClassGraph {
    pub(crate) kinds: Vec<KindRow>,
    pub(crate) above: Vec<AboveRow>,
    pub(crate) methods: Members,
    pub(crate) fields: Members,
}

impl Model for ClassGraph {
    ghost use Rattle.class_graph.specs.Graph.{GraphParts};

    ghost Value = { GraphParts };

    ghost view = { λ g. record { kinds = g.kinds.items; above = g.above.items; methods = g.methods; fields = g.fields } };
}

impl ClassGraph {
    /// Whether type `a` is type `b`, or has it above it.
    pub fn is_sub(&self, a: TypeNo, b: TypeNo) -> bool
        ensures { (app : AppParts) → IsClassGraph app self.now → result ≡ is_sub app a.0 b.0 }
    {
        self.sub(a, b)
    }

    /// Whether an object of type `kind` may be one of type `of`, as far as the files say.
    pub fn maybe_sub(&self, kind: TypeNo, of: TypeNo) -> bool
        ensures { (app : AppParts) → IsClassGraph app self.now → result ≡ may_be_sub app (Some kind.0) of.0 }
    {
        self.may_be(kind, of)
    }

    /// The nearest method of this name and prototype that is not abstract, in a class and the classes of
    /// the application above it; the first one of a class.
    pub fn lookup(&self, class: ClassNo, name: NameNo, proto: ProtoNo) -> Found
        ensures { (app : AppParts) (row : ClassParts) → IsClassGraph app self.now → slice_get app.classes class.0 ≡ Some row
            → found_number result ≡ lookup_of app row.name.0 name.0 proto.0 }
    {
        match self.method(class, name, proto) {
            Some(method) => Found::App(MethodNo(method)),
            None => Found::Outside,
        }
    }

    /// The nearest field of this name and type, in the class of a type and the classes of the application
    /// above it; the first one of a class.
    pub fn resolve_field(&self, class: TypeNo, name: NameNo, kind: TypeNo) -> Option<FieldNo>
        ensures { (app : AppParts) → IsClassGraph app self.now → option_map (λ (f : FieldNo). f.0) result ≡ resolve_field_of app class.0 name.0 kind.0 }
    {
        match self.field(class, name, kind) {
            Some(field) => Some(FieldNo(field)),
            None => None,
        }
    }

    fn class_of_type(&self, kind: TypeNo) -> Option<ClassNo>
        ensures { option_map (λ (c : ClassNo). c.0) result ≡ class_by self.now.kinds kind.0 }
    {
        match self.kinds.get(kind.0 as usize) {
            Some(row) => row.class,
            None => None,
        }
    }

    fn superclass(&self, class: ClassNo) -> Option<ClassNo>
        ensures { option_map (λ (c : ClassNo). c.0) result ≡ superclass_by self.now class.0 }
    {
        let row = self.above.get(class.0 as usize)?;
        self.class_of_type(row.parent?)
    }

    // Whether a type is a parent of a class, or stands above an interface of it.
    fn stands_above(&self, class: ClassNo, kind: TypeNo) -> bool
        ensures { result ≡ stands_by self.now kind.0 class.0 }
    {
        match self.above.get(class.0 as usize) {
            Some(row) => row.stands(kind),
            None => false,
        }
    }

    fn leads_out(&self, class: ClassNo) -> bool
        ensures { result ≡ leads_by self.now class.0 }
    {
        match self.above.get(class.0 as usize) {
            Some(row) => row.unknown,
            None => false,
        }
    }

    fn sub(&self, a: TypeNo, b: TypeNo) -> bool
        ensures { result ≡ sub_by self.now a.0 b.0 }
    {
        a.0 == b.0 || self.line_stands(self.class_of_type(a), b)
    }

    // A class, or one of the application above it, has the type above it.
    #[tactic(auto, using(crate::proofs::Lines::any_step))]
    fn line_stands(&self, from: Option<ClassNo>, kind: TypeNo) -> bool
        ensures { result ≡ list_any (stands_by self.now kind.0) (line_by self.now (option_map (λ (c : ClassNo). c.0) from)) }
    {
        let mut class = from;
        for _step in 0..self.above.len() {
            let Some(here) = class else {
                return false;
            };
            if self.stands_above(here, kind) {
                return true;
            }
            class = self.superclass(here);
        }
        false
    }

    #[tactic(auto, using(crate::proofs::Lines::any_step))]
    fn line_leads(&self, from: Option<ClassNo>) -> bool
        ensures { result ≡ list_any (leads_by self.now) (line_by self.now (option_map (λ (c : ClassNo). c.0) from)) }
    {
        let mut class = from;
        for _step in 0..self.above.len() {
            let Some(here) = class else {
                return false;
            };
            if self.leads_out(here) {
                return true;
            }
            class = self.superclass(here);
        }
        false
    }

    fn unknown_above(&self, kind: TypeNo) -> bool
        ensures { result ≡ unknown_by self.now kind.0 }
    {
        self.is_unknown(kind) || self.line_leads(self.class_of_type(kind))
    }

    fn is_unknown(&self, kind: TypeNo) -> bool
        ensures { result ≡ is_unknown_kind (slice_get self.now.kinds kind.0) }
    {
        match self.kinds.get(kind.0 as usize) {
            Some(row) => row.unknown,
            None => false,
        }
    }

    fn may_be(&self, kind: TypeNo, of: TypeNo) -> bool
        ensures { result ≡ may_be_by self.now kind.0 of.0 }
    {
        self.sub(kind, of) || (self.class_of_type(of).is_none() && self.unknown_above(kind))
    }

    #[tactic(auto, using(crate::proofs::Lines::nearest_step))]
    fn nearest(
        &self,
        members: &Members,
        from: Option<ClassNo>,
        name: NameNo,
        second: u32,
    ) -> Option<u32>
        ensures { result ≡ nearest (member_in members.now name.0 second) (line_by self.now (option_map (λ (c : ClassNo). c.0) from)) }
    {
        let mut class = from;
        for _step in 0..self.above.len() {
            let here = class?;
            if let Some(number) = members.find(here, name, second) {
                return Some(number);
            }
            class = self.superclass(here);
        }
        None
    }

    fn method(&self, class: ClassNo, name: NameNo, proto: ProtoNo) -> Option<u32>
        ensures { result ≡ method_by self.now class.0 name.0 proto.0 }
    {
        self.nearest(&self.methods, Some(class), name, proto.0)
    }

    fn field(&self, class: TypeNo, name: NameNo, kind: TypeNo) -> Option<u32>
        ensures { result ≡ field_by self.now class.0 name.0 kind.0 }
    {
        self.nearest(&self.fields, self.class_of_type(class), name, kind.0)
    }
}

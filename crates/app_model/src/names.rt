//! Types, names and prototypes by their texts.
ghost use Rattle.std.specs.Prelude.{◌≡◌, map};
ghost use Rattle.app_model.specs.Names.{type_text, name_text, result_text, are_types, is_proto, is_on, is_method};

use crate::app::App;
use crate::rows::Named;
use ns_base::{NameNo, ProtoNo, TypeNo};

/// The class of wake locks.
pub const WAKE_LOCK: &[u8] = b"Landroid/os/PowerManager$WakeLock;";

/// The class that makes them.
pub const POWER_MANAGER: &[u8] = b"Landroid/os/PowerManager;";

/// The class of texts.
pub const STRING: &[u8] = b"Ljava/lang/String;";

impl App {
    /// The descriptor of a type; empty where there is no such type.
    #[tactic(auto, unfolding(crate::specs::Names::type_text))]
    pub fn type_text(&self, kind: TypeNo) -> &[u8]
        ensures { result.now ≡ type_text self.now kind.0 }
    {
        if kind.0 < self.type_count() {
            self.type_name(kind)
        } else {
            &[]
        }
    }

    /// A name; empty where there is no such name.
    #[tactic(auto, unfolding(crate::specs::Names::name_text))]
    pub fn name_text(&self, name: NameNo) -> &[u8]
        ensures { result.now ≡ name_text self.now name.0 }
    {
        if name.0 < self.name_count() {
            self.name(name)
        } else {
            &[]
        }
    }

    /// The descriptor of a prototype's result; empty where there is no such prototype.
    #[tactic(auto, unfolding(crate::specs::Names::result_text))]
    pub fn result_text(&self, proto: ProtoNo) -> &[u8]
        ensures { result.now ≡ result_text self.now proto.0 }
    {
        if proto.0 < self.proto_count() {
            self.type_text(self.proto(proto).result)
        } else {
            &[]
        }
    }

    /// Whether a prototype has a result and parameters of these descriptors.
    #[tactic(auto, unfolding(crate::specs::Names::is_proto))]
    pub fn is_proto(&self, proto: ProtoNo, output: &[u8], params: &[&[u8]]) -> bool
        ensures { result ≡ is_proto self.now proto.0 output.now (map (λ p. p.now) params.now) }
    {
        if proto.0 < self.proto_count() {
            let row = self.proto(proto);
            self.type_text(row.result) == output && self.are_types(&row.params, params)
        } else {
            false
        }
    }

    /// Whether a named method is one of the class of this descriptor.
    pub fn is_on(&self, named: Named, class: &[u8]) -> bool
        ensures { result ≡ is_on self.now named class.now }
    {
        self.type_text(named.class) == class
    }

    /// Whether a named method has this name, and a prototype of these descriptors.
    pub fn is_method(&self, named: Named, name: &[u8], output: &[u8], params: &[&[u8]]) -> bool
        ensures { result ≡ is_method self.now named name.now output.now (map (λ p. p.now) params.now) }
    {
        self.name_text(named.name) == name && self.is_proto(named.proto, output, params)
    }

    // Whether types have these descriptors, one by one.
    fn are_types(&self, types: &[TypeNo], texts: &[&[u8]]) -> bool
        ensures { result ≡ are_types self.now types.now (map (λ t. t.now) texts.now) }
    {
        if types.len() != texts.len() {
            return false;
        }
        for i in 0..types.len() {
            if self.type_text(types[i]) != texts[i] {
                return false;
            }
        }
        true
    }
}

//! The id tables of a file that is built, in the order of first sight.
ghost use Rattle.std.specs.Prelude.{◌≡◌, ℕ, List, [], ◌∷◌, map, string_bytes, length, not, IfOk};
ghost use Rattle.build_tables.specs.Tables.{IdRows, Seen, no_rows, string_seen, type_row_seen, proto_row_seen, field_row_seen, method_row_seen, type_seen, types_seen, proto_seen, field_of_seen, method_of_seen, field_seen, method_seen, has_table_room, has_room, mark_of, cut_at, HasGrown, IsRef, IsSettled, AreSeen};
ghost use Rattle.build_tables.specs.Spelling.{shorty_of};

use crate::fault::BuildFault;
use crate::rows::{Rows, Texts};
use crate::spelling::{mutf8_from, shorty_from};
use std::alloc::{AllocError, Global};
use std::marker::Model;

const MOST_ROWS: usize = 65535;

/// The tables: the MUTF-8 bytes of each string, and the numbers of each other row.
#[derive(Drop)]
pub struct Tables {
    pub strings: Texts,
    pub types: Rows,
    pub protos: Rows,
    pub fields: Rows,
    pub methods: Rows,
}

/// How many rows each table had.
#[derive(Clone, Copy)]
pub struct Mark {
    pub strings: usize,
    pub types: usize,
    pub protos: usize,
    pub fields: usize,
    pub methods: usize,
}

impl Model for Tables {
    ghost use Rattle.build_tables.specs.Tables.{IdRows};

    ghost Value = { IdRows };

    ghost view = { λ t. record {
      strings = t.strings;
      types = t.types;
      protos = t.protos;
      fields = t.fields;
      methods = t.methods;
    } };
}

impl Tables {
    /// No rows.
    pub fn new(alloc: Global) -> Tables
        ensures { result ≡ no_rows }
    {
        Tables {
            strings: Texts::new(alloc),
            types: Rows::new(alloc),
            protos: Rows::new(alloc),
            fields: Rows::new(alloc),
            methods: Rows::new(alloc),
        }
    }

    /// How many rows there are.
    pub fn mark(&self) -> Mark
        ensures { result ≡ mark_of self.now }
    {
        Mark {
            strings: self.strings.len(),
            types: self.types.len(),
            protos: self.protos.len(),
            fields: self.fields.len(),
            methods: self.methods.len(),
        }
    }

    /// As at the mark, where rows were only added since.
    pub fn cut(&mut self, mark: Mark)
        ensures { self.new ≡ cut_at mark self.old }
    {
        self.strings.truncate(mark.strings);
        self.types.truncate(mark.types);
        self.protos.truncate(mark.protos);
        self.fields.truncate(mark.fields);
        self.methods.truncate(mark.methods);
    }

    // Whether no table that grew since the mark has too many rows.
    fn has_room(&self, mark: Mark) -> bool
        ensures { result ≡ has_room mark self.now }
    {
        has_table_room(mark.strings, self.strings.len())
            && has_table_room(mark.types, self.types.len())
            && has_table_room(mark.protos, self.protos.len())
            && has_table_room(mark.fields, self.fields.len())
            && has_table_room(mark.methods, self.methods.len())
    }

    // The answer of a call that saw this since the mark.
    fn settle(&mut self, mark: Mark, seen: Result<u32, AllocError>) -> Result<u32, BuildFault>
        ensures { IsSettled mark self.old self.new seen result }
    {
        let Ok(number) = seen else {
            self.cut(mark);
            return Err(BuildFault::Memory);
        };
        if !self.has_room(mark) {
            self.cut(mark);
            return Err(BuildFault::TooMany);
        }
        Ok(number)
    }

    /// The number of a string. What is no text of the tables yet goes last.
    pub fn string_ref(&mut self, alloc: Global, text: &str) -> Result<u32, BuildFault>
        ensures { IsRef self.old (string_seen text.now self.old) self.new result }
    {
        let mark = self.mark();
        let seen = self.see_string(alloc, text);
        self.settle(mark, seen)
    }

    /// The number of a type.
    pub fn type_ref(&mut self, alloc: Global, name: &str) -> Result<u32, BuildFault>
        ensures { IsRef self.old (type_seen name.now self.old) self.new result }
    {
        let mark = self.mark();
        let seen = self.see_type(alloc, name);
        self.settle(mark, seen)
    }

    /// The number of a field.
    pub fn field_ref(
        &mut self,
        alloc: Global,
        class: &str,
        kind: &str,
        name: &str,
    ) -> Result<u32, BuildFault>
        ensures { IsRef self.old (field_seen class.now kind.now name.now self.old) self.new result }
    {
        let mark = self.mark();
        let seen = self.see_field(alloc, class, kind, name);
        self.settle(mark, seen)
    }

    /// The number of a method.
    pub fn method_ref(
        &mut self,
        alloc: Global,
        class: &str,
        name: &str,
        gives: &str,
        params: &[String],
    ) -> Result<u32, BuildFault>
        ensures { IsRef self.old (method_seen class.now name.now gives.now (map string_bytes params.now) self.old) self.new result }
    {
        let mark = self.mark();
        let seen = self.see_method(alloc, class, name, gives, params);
        self.settle(mark, seen)
    }

    // Sees a text that is given by its bytes.
    fn see_bytes(&mut self, alloc: Global, text: &[u8]) -> Result<u32, AllocError>
        ensures seen { IfOk result (λ n. string_seen text.now self.old ≡ record { found = n; rows = self.new }) }
        ensures grown { HasGrown self.old self.new }
    {
        let text = mutf8_from(alloc, text)?;
        let number = self.strings.see(text)?;
        Ok(number)
    }

    /// Sees a text.
    pub fn see_string(&mut self, alloc: Global, text: &str) -> Result<u32, AllocError>
        ensures seen { IfOk result (λ n. string_seen text.now self.old ≡ record { found = n; rows = self.new }) }
        ensures grown { HasGrown self.old self.new }
    {
        let number = self.see_bytes(alloc, text.as_bytes())?;
        Ok(number)
    }

    fn see_type_row(&mut self, alloc: Global, row: &[u32]) -> Result<u32, AllocError>
        ensures seen { IfOk result (λ n. type_row_seen row.now self.old ≡ record { found = n; rows = self.new }) }
        ensures grown { HasGrown self.old self.new }
    {
        let row = copy_row(alloc, row)?;
        let number = self.types.see(row)?;
        Ok(number)
    }

    fn see_proto_row(&mut self, alloc: Global, row: &[u32]) -> Result<u32, AllocError>
        ensures seen { IfOk result (λ n. proto_row_seen row.now self.old ≡ record { found = n; rows = self.new }) }
        ensures grown { HasGrown self.old self.new }
    {
        let row = copy_row(alloc, row)?;
        let number = self.protos.see(row)?;
        Ok(number)
    }

    fn see_field_row(&mut self, alloc: Global, row: &[u32]) -> Result<u32, AllocError>
        ensures seen { IfOk result (λ n. field_row_seen row.now self.old ≡ record { found = n; rows = self.new }) }
        ensures grown { HasGrown self.old self.new }
    {
        let row = copy_row(alloc, row)?;
        let number = self.fields.see(row)?;
        Ok(number)
    }

    fn see_method_row(&mut self, alloc: Global, row: &[u32]) -> Result<u32, AllocError>
        ensures seen { IfOk result (λ n. method_row_seen row.now self.old ≡ record { found = n; rows = self.new }) }
        ensures grown { HasGrown self.old self.new }
    {
        let row = copy_row(alloc, row)?;
        let number = self.methods.see(row)?;
        Ok(number)
    }

    /// Sees a type, its text first.
    #[tactic(auto, unfolding(crate::specs::Tables::type_seen))]
    pub fn see_type(&mut self, alloc: Global, name: &str) -> Result<u32, AllocError>
        ensures seen { IfOk result (λ n. type_seen name.now self.old ≡ record { found = n; rows = self.new }) }
        ensures grown { HasGrown self.old self.new }
    {
        let string = self.see_string(alloc, name)?;
        let number = self.see_type_row(alloc, &[string])?;
        Ok(number)
    }

    // Sees a type and puts its number last.
    fn see_one(&mut self, alloc: Global, row: &mut Vec<u32>, name: &str) -> Result<(), AllocError>
        ensures seen { IfOk result (λ _. AreSeen row.old.items row.new.items self.new (types_seen (name.now ∷ []) self.old)) }
        ensures grown { HasGrown self.old self.new }
    {
        let number = self.see_type(alloc, name)?;
        row.push(number)?;
        Ok(())
    }

    // Sees types and puts their numbers last.
    fn see_types(
        &mut self,
        alloc: Global,
        row: &mut Vec<u32>,
        names: &[String],
    ) -> Result<(), AllocError>
        ensures seen { IfOk result (λ _. AreSeen row.old.items row.new.items self.new (types_seen (map string_bytes names.now) self.old)) }
        ensures grown { HasGrown self.old self.new }
    {
        for name in names {
            self.see_one(alloc, row, name.as_str())?;
        }
        Ok(())
    }

    // Sees the parameters of a prototype.
    fn see_params(&mut self, alloc: Global, names: &[String]) -> Result<Vec<u32>, AllocError>
        ensures seen { IfOk result (λ kinds. types_seen (map string_bytes names.now) self.old ≡ record { found = kinds.items; rows = self.new }) }
        ensures grown { HasGrown self.old self.new }
    {
        let mut kinds = Vec::with_capacity(alloc, names.len())?;
        self.see_types(alloc, &mut kinds, names)?;
        Ok(kinds)
    }

    // Sees the shorty of a prototype.
    fn see_shorty(
        &mut self,
        alloc: Global,
        gives: &str,
        params: &[String],
    ) -> Result<u32, AllocError>
        ensures seen { IfOk result (λ n. string_seen (shorty_of gives.now (map string_bytes params.now)) self.old ≡ record { found = n; rows = self.new }) }
        ensures grown { HasGrown self.old self.new }
    {
        let shorty = shorty_from(alloc, gives, params)?;
        let number = self.see_bytes(alloc, &shorty)?;
        Ok(number)
    }

    // Sees a prototype of types that were seen.
    fn see_proto_of(
        &mut self,
        alloc: Global,
        shorty: u32,
        gives: u32,
        kinds: &[u32],
    ) -> Result<u32, AllocError>
        ensures seen { IfOk result (λ n. proto_row_seen (shorty ∷ gives ∷ kinds.now) self.old ≡ record { found = n; rows = self.new }) }
        ensures grown { HasGrown self.old self.new }
    {
        let row = proto_row(alloc, shorty, gives, kinds)?;
        let number = self.see_proto_row(alloc, &row)?;
        Ok(number)
    }

    // Sees a prototype: its types, its shorty, and then the prototype.
    #[tactic(auto, unfolding(crate::specs::Tables::proto_seen))]
    fn see_proto(
        &mut self,
        alloc: Global,
        gives: &str,
        params: &[String],
    ) -> Result<u32, AllocError>
        ensures seen { IfOk result (λ n. proto_seen gives.now (map string_bytes params.now) self.old ≡ record { found = n; rows = self.new }) }
        ensures grown { HasGrown self.old self.new }
    {
        let kind = self.see_type(alloc, gives)?;
        let kinds = self.see_params(alloc, params)?;
        let shorty = self.see_shorty(alloc, gives, params)?;
        let number = self.see_proto_of(alloc, shorty, kind, &kinds)?;
        Ok(number)
    }

    /// Sees a field of a class: its type, its name, and then the field.
    #[tactic(auto, unfolding(crate::specs::Tables::field_of_seen))]
    pub fn see_field_of(
        &mut self,
        alloc: Global,
        class: u32,
        kind: &str,
        name: &str,
    ) -> Result<u32, AllocError>
        ensures seen { IfOk result (λ n. field_of_seen class kind.now name.now self.old ≡ record { found = n; rows = self.new }) }
        ensures grown { HasGrown self.old self.new }
    {
        let kind = self.see_type(alloc, kind)?;
        let name = self.see_string(alloc, name)?;
        let number = self.see_field_row(alloc, &[class, kind, name])?;
        Ok(number)
    }

    /// Sees a method of a class: its prototype, its name, and then the method.
    #[tactic(auto, unfolding(crate::specs::Tables::method_of_seen))]
    pub fn see_method_of(
        &mut self,
        alloc: Global,
        class: u32,
        name: &str,
        gives: &str,
        params: &[String],
    ) -> Result<u32, AllocError>
        ensures seen { IfOk result (λ n. method_of_seen class name.now gives.now (map string_bytes params.now) self.old ≡ record { found = n; rows = self.new }) }
        ensures grown { HasGrown self.old self.new }
    {
        let proto = self.see_proto(alloc, gives, params)?;
        let name = self.see_string(alloc, name)?;
        let number = self.see_method_row(alloc, &[class, proto, name])?;
        Ok(number)
    }

    /// Sees a field, its class first.
    #[tactic(auto, unfolding(crate::specs::Tables::field_seen))]
    pub fn see_field(
        &mut self,
        alloc: Global,
        class: &str,
        kind: &str,
        name: &str,
    ) -> Result<u32, AllocError>
        ensures seen { IfOk result (λ n. field_seen class.now kind.now name.now self.old ≡ record { found = n; rows = self.new }) }
        ensures grown { HasGrown self.old self.new }
    {
        let class = self.see_type(alloc, class)?;
        let number = self.see_field_of(alloc, class, kind, name)?;
        Ok(number)
    }

    /// Sees a method, its class first.
    #[tactic(auto, unfolding(crate::specs::Tables::method_seen))]
    pub fn see_method(
        &mut self,
        alloc: Global,
        class: &str,
        name: &str,
        gives: &str,
        params: &[String],
    ) -> Result<u32, AllocError>
        ensures seen { IfOk result (λ n. method_seen class.now name.now gives.now (map string_bytes params.now) self.old ≡ record { found = n; rows = self.new }) }
        ensures grown { HasGrown self.old self.new }
    {
        let class = self.see_type(alloc, class)?;
        let number = self.see_method_of(alloc, class, name, gives, params)?;
        Ok(number)
    }
}

fn proto_row(alloc: Global, shorty: u32, gives: u32, kinds: &[u32]) -> Result<Vec<u32>, AllocError>
    ensures { IfOk result (λ row. row.items ≡ shorty ∷ gives ∷ kinds.now) }
{
    let mut row = copy_row(alloc, &[shorty, gives])?;
    row.extend_from_slice(kinds)?;
    Ok(row)
}

fn copy_row(alloc: Global, numbers: &[u32]) -> Result<Vec<u32>, AllocError>
    ensures { IfOk result (λ row. row.items ≡ numbers.now) }
{
    numbers.to_vec(alloc)
}

fn has_table_room(before: usize, now: usize) -> bool
    ensures { result ≡ has_table_room before now }
{
    now <= MOST_ROWS || now == before
}

//! The methods of which one may answer an abstract method.

ghost use Rattle.std.specs.Prelude.{◌≡◌, ◌≤◌, ◌∷◌, ◌++◌, [], IfOk, OnOk, Some, length, map, slice_get};
ghost use Rattle.builtin_world.specs.BuiltinClass.{rows, shown_method};
ghost use Rattle.code_decode.specs.declared.code.ClassUnit.{ClassUnit};
ghost use Rattle.link_rules.specs.Classes.{class_of_unit, library_method, member_of_file};
ghost use Rattle.link_members.specs.Members.{candidates_of};
ghost use Rattle.link_implementations.specs.Implementations.{abstract_candidates, candidate_table};

use access_flags::{ABSTRACT, has};
use builtin_world::{BuiltinMethod, builtins};
use class_read::Member;
use member_lookup::MemberLookup;
use member_table::MemberRow;
use rows::Rows;
use std::alloc::{AllocError, Global};
use std::marker::Model;

/// The methods of the name and the descriptor of an abstract method that are neither static nor private. Contracts see
/// them as a list.
#[derive(Drop)]
pub struct Candidates<'a> {
    methods: &'a [MemberRow],
}

impl<'a> Model for Candidates<'a> {
    ghost use Rattle.std.specs.Prelude.{List};
    ghost use Rattle.member_table.specs.declared.table.MemberRow.{MemberRow};

    ghost Value = { List MemberRow };

    ghost view = { λ c. c.methods.now };
}

impl<'a> Candidates<'a> {
    /// The methods.
    pub fn methods(&self) -> &'a [MemberRow]
        ensures { result.now ≡ self.now }
    {
        self.methods
    }
}

/// Those of a built-in method.
fn of_builtin<'a>(lookup: &'a MemberLookup<'_>, method: &BuiltinMethod) -> Candidates<'a>
    ensures { result ≡ candidates_of lookup.now (library_method (shown_method method.now)) }
{
    let texts = lookup.texts();
    let name = texts.number(method.name.as_bytes());
    let descriptor = texts.number(method.descriptor.as_bytes());
    Candidates {
        methods: lookup.virtuals(name, descriptor),
    }
}

/// Those of the abstract ones of some built-in methods.
fn builtin_candidates<'a>(
    alloc: Global,
    lookup: &'a MemberLookup<'_>,
    methods: &[BuiltinMethod],
) -> Result<Vec<Candidates<'a>>, AllocError>
    ensures { IfOk result (λ candidates. candidates.items ≡ abstract_candidates lookup.now (map library_method (map shown_method methods.now))) }
{
    let mut candidates = Vec::new(alloc);
    for method in methods {
        if has(method.flags, ABSTRACT) {
            candidates.push(of_builtin(lookup, method))?;
        }
    }
    Ok(candidates)
}

/// Those of a method of a file.
fn of_file<'a>(lookup: &'a MemberLookup<'_>, file: u32, method: &Member) -> Candidates<'a>
    ensures { (u : ClassUnit) → slice_get lookup.now.units file ≡ Some u → result ≡ candidates_of lookup.now (member_of_file u.file.pool method.now) }
{
    let texts = lookup.texts();
    let name = texts.name_at(file, method.name);
    let descriptor = texts.name_at(file, method.descriptor);
    Candidates {
        methods: lookup.virtuals(name, descriptor),
    }
}

/// Those of the abstract ones of some methods of a file.
fn file_candidates<'a>(
    alloc: Global,
    lookup: &'a MemberLookup<'_>,
    file: u32,
    methods: &[Member],
) -> Result<Vec<Candidates<'a>>, AllocError>
    ensures { IfOk result (λ candidates. (u : ClassUnit) → slice_get lookup.now.units file ≡ Some u → candidates.items ≡ abstract_candidates lookup.now (map (member_of_file u.file.pool) methods.now)) }
{
    let mut candidates = Vec::new(alloc);
    for method in methods {
        if has(method.flags, ABSTRACT) {
            candidates.push(of_file(lookup, file, method))?;
        }
    }
    Ok(candidates)
}

/// None for the number 0, which is no class, then those of the built-in classes.
fn builtin_table<'a>(
    alloc: Global,
    lookup: &'a MemberLookup<'_>,
) -> Result<Vec<Rows<Candidates<'a>>>, AllocError>
    ensures { IfOk result (λ table. table.items ≡ [] ∷ map (λ r. abstract_candidates lookup.now (map library_method r.methods)) rows) }
{
    let mut table = Vec::new(alloc);
    table.push(Rows::new(alloc))?;
    for class in builtins() {
        table.push(Rows::from_vec(builtin_candidates(alloc, lookup, class.methods)?))?;
    }
    Ok(table)
}

/// Adds those of the classes of files.
fn add_files<'a>(
    alloc: Global,
    lookup: &'a MemberLookup<'_>,
    table: &mut Vec<Rows<Candidates<'a>>>,
) -> Result<(), AllocError>
    requires { length lookup.now.units ≤ 1024 }
    ensures { OnOk result (table.new.items ≡ table.old.items ++ map (λ u. abstract_candidates lookup.now (class_of_unit u).methods) lookup.now.units) }
{
    for (file, unit) in lookup.texts().units().iter().enumerate() {
        let methods = unit.file.methods.as_slice();
        table.push(Rows::from_vec(file_candidates(alloc, lookup, file as u32, methods)?))?;
    }
    Ok(())
}

/// Those of the abstract methods of each class, by its number.
pub fn candidate_table<'a>(
    alloc: Global,
    lookup: &'a MemberLookup<'_>,
) -> Result<Vec<Rows<Candidates<'a>>>, AllocError>
    requires { length lookup.now.units ≤ 1024 }
    ensures { IfOk result (λ table. table.items ≡ candidate_table lookup.now) }
{
    let mut table = builtin_table(alloc, lookup)?;
    add_files(alloc, lookup, &mut table)?;
    Ok(table)
}

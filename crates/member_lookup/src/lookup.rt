//! Look-up of fields and methods.

ghost use Rattle.std.specs.Prelude.{◌≡◌, ◌≤◌, ◌==◌, ◌||◌, ◌&&◌, ℕ, not, IfOk, find, length, map, option_map, slice_get, Some};
ghost use Rattle.std.specs.List.{list_any};
ghost use Rattle.access_flags.specs.Flags.{has};
ghost use Rattle.access_flags.specs.declared.TheConstants.{STATIC as static_flag, PRIVATE as private_flag, FINAL as final_flag};
ghost use Rattle.search_orders.specs.Orders.{rank};
ghost use Rattle.class_pool.specs.Pool.{Reference};
ghost use Rattle.class_pool.specs.Lookup.{reference_in};
ghost use Rattle.code_decode.specs.declared.code.ClassUnit.{ClassUnit};
ghost use Rattle.link_rules.specs.Supers.{superclasses};
ghost use Rattle.link_rules.specs.Classes.{classes_of, superclass_of, methods_of};
ghost use Rattle.link_rules.specs.Members.{Declared, is_member, is_virtual, holder, is_initializer, found_field, found_method, selected, special};
ghost use Rattle.link_rules.specs.LinkRules.{hierarchy_rules};
ghost use Rattle.class_texts.specs.Texts.{ProgramTexts};
ghost use Rattle.member_lookup.specs.Found.{found_of, AreNumbers, AreNumbersOf, HaveNumbers, first_virtual, holder_named, virtuals_of};
ghost use Rattle.member_lookup.specs.Rows.{class_rows};

use crate::found::{Found, ReferenceNumbers, read_row};
use crate::references::{assemble, class_text, member_entry, pair_texts};
use crate::rows_of::method_rows;
use crate::source::unit_at;
use crate::tables::{Tables, member_tables};
use access_flags::{FINAL, PRIVATE, STATIC, has};
use builtin_world::number::OBJECT;
use class_orders::ClassOrders;
use class_supers::Supers;
use class_texts::ClassTexts;
use member_table::{MemberRow, find_first};
use search_orders::Order;
use std::alloc::{AllocError, Global};
use std::marker::Model;

/// The members of a program by name and descriptor. Contracts see its files, and their texts by number.
#[derive(Drop)]
pub struct MemberLookup<'a> {
    orders: ClassOrders<'a>,
    texts: ClassTexts<'a>,
    holders: Vec<u32>,
    initializer: u32,
    tables: Tables,
}

impl<'a> Model for MemberLookup<'a> {
    ghost use Rattle.class_texts.specs.Texts.{ProgramTexts};
    ghost use Rattle.member_lookup.specs.Found.{IsLookup};

    ghost Value = { ProgramTexts };

    ghost view = { λ l. l.texts };

    ghost invariant = { λ l. IsLookup l.orders l.texts l.holders.items l.initializer l.tables };
}

/// The class in which look-up begins where a class of this name is named.
fn holder_named(supers: &Supers<'_>, name: &[u8]) -> u32
    ensures { result ≡ holder_named (classes_of supers.now) name.now }
{
    if name.first() == Some(&b'[') {
        OBJECT
    } else {
        supers.class_number(name)
    }
}

/// For each text the class in which look-up begins where a class of this name is named.
fn holders(
    alloc: Global,
    supers: &Supers<'_>,
    texts: &ClassTexts<'_>,
) -> Result<Vec<u32>, AllocError>
    ensures { IfOk result (λ holders. holders.items ≡ map (holder_named (classes_of supers.now)) texts.now.texts) }
{
    let mut holders = Vec::new(alloc);
    for name in texts.all() {
        holders.push(holder_named(supers, name))?;
    }
    Ok(holders)
}

/// Of some members the first one of a class.
fn first_of_class(members: &[MemberRow], class: u32) -> Option<MemberRow>
    ensures { result ≡ find (λ m. m.class == class) members.now }
{
    members.iter().find(|member| member.class == class).copied()
}

/// Whether a final method of a class of an order is among some methods.
fn any_final(methods: &[MemberRow], order: &Order) -> bool
    ensures { result ≡ list_any (λ m. has m.flags final_flag && not (rank order.now m.class == 0)) methods.now }
{
    for method in methods {
        if has(method.flags, FINAL) && order.rank(method.class) != 0 {
            return true;
        }
    }
    false
}

/// Whether a method of these flags is neither static nor private.
fn is_selectable(flags: u16) -> bool
    ensures { result ≡ not (has flags static_flag || has flags private_flag) }
{
    !(has(flags, STATIC) || has(flags, PRIVATE))
}

impl<'a> MemberLookup<'a> {
    /// Numbers the members of a program.
    ///
    /// # Errors
    /// Where there is no memory.
    pub fn new(alloc: Global, orders: ClassOrders<'a>) -> Result<Self, AllocError>
        requires { (hierarchy_rules orders).Hold }
        ensures { IfOk result (λ lookup. lookup.units ≡ orders.entry) }
    {
        let supers = orders.supers();
        let texts = ClassTexts::new(alloc, supers.units())?;
        let holders = holders(alloc, supers, &texts)?;
        let tables = member_tables(alloc, &texts)?;
        let initializer = texts.number(b"<init>");
        Ok(MemberLookup {
            orders,
            texts,
            holders,
            initializer,
            tables,
        })
    }

    /// The numbers of the field or method that the entry at an index of the pool of a file names (JVMS 4.4.2), or
    /// `None` where there is no such entry. Takes no memory, and no time to speak of.
    pub fn reference(&self, file: u32, index: u16) -> Option<ReferenceNumbers>
        ensures { (u : ClassUnit) → slice_get self.now.units file ≡ Some u → AreNumbersOf self.now (reference_in u.file.pool (slice_get u.file.pool index)) result }
    {
        let unit = unit_at(self.texts.units(), file)?;
        let pool = unit.file.pool.as_slice();
        let (class, pair) = member_entry(pool, index)?;
        let class = class_text(&self.texts, file, pool, class);
        let pair = pair_texts(&self.texts, file, pool, pair);
        assemble(&self.holders, class, pair)
    }

    /// The field that a reference means (JVMS 5.4.3.2). Takes no memory, and as long as the fields of this name and
    /// descriptor are many.
    pub fn found_field(&self, reference: ReferenceNumbers) -> Option<Found>
        requires { reference.holder ≤ length (classes_of self.now.units) }
        ensures { (r : Reference) → AreNumbers self.now reference r → result ≡ option_map found_of (found_field (classes_of self.now.units) r) }
    {
        let fields = self
            .tables
            .fields
            .declarers(reference.name, reference.descriptor);
        read_row(find_first(fields, &self.orders.of(reference.holder).fields))
    }

    /// The method that a reference means (JVMS 5.4.3.3, 5.4.3.4); a constructor is looked for in the named class alone.
    /// Takes no memory, and as long as the methods of this name and descriptor are many.
    pub fn found_method(&self, reference: ReferenceNumbers) -> Option<Found>
        requires { reference.holder ≤ length (classes_of self.now.units) }
        ensures { (r : Reference) → AreNumbers self.now reference r → result ≡ option_map found_of (found_method (classes_of self.now.units) r) }
    {
        let methods = self
            .tables
            .methods
            .declarers(reference.name, reference.descriptor);
        if self.initializer == reference.name {
            return read_row(first_of_class(methods, reference.holder));
        }
        read_row(find_first(methods, &self.orders.of(reference.holder).methods))
    }

    /// The methods of a name and a descriptor that are neither static nor private, by the numbers of their texts, by class
    /// and place. A search of numbers; takes no memory.
    pub fn virtuals(&self, name: u32, descriptor: u32) -> &[MemberRow]
        ensures { result.now ≡ virtuals_of self.now name descriptor }
    {
        self.tables.virtuals.declarers(name, descriptor)
    }

    /// The method that an object of a class answers with (JVMS 6.5, invokevirtual), of the methods of its name and
    /// descriptor that are neither static nor private. Takes no memory, and as long as they are many.
    pub fn selected_among(&self, class: u32, methods: &[MemberRow]) -> Option<Found>
        requires { class ≤ length (classes_of self.now.units) }
        ensures { (name descriptor : ℕ) (r : Reference) → methods.now ≡ virtuals_of self.now name descriptor → HaveNumbers self.now name descriptor r → result ≡ option_map found_of (selected (classes_of self.now.units) class r) }
    {
        read_row(find_first(methods, &self.orders.of(class).superclasses))
    }

    /// The method of a name and a descriptor that an object of a class answers with (JVMS 6.5, invokevirtual), by the
    /// numbers of their texts. Takes no memory, and as long as the methods of this name and descriptor are many.
    pub fn selected(&self, class: u32, name: u32, descriptor: u32) -> Option<Found>
        requires { class ≤ length (classes_of self.now.units) }
        ensures { (r : Reference) → HaveNumbers self.now name descriptor r → result ≡ option_map found_of (selected (classes_of self.now.units) class r) }
    {
        self.selected_among(class, self.virtuals(name, descriptor))
    }

    /// Whether a class or a superclass of it has a method of a name and a descriptor that is final and neither static nor
    /// private (JVMS 5.4.5), by the numbers of their texts. Takes no memory, and as long as the methods of this name and
    /// descriptor are many.
    pub fn has_final(&self, class: u32, name: u32, descriptor: u32) -> bool
        requires { class ≤ length (classes_of self.now.units) }
        ensures { (r : Reference) → HaveNumbers self.now name descriptor r → result
            ≡ list_any (λ d. list_any (λ n. is_member r n && (is_virtual n && has n.flags final_flag)) (methods_of (classes_of self.now.units) d)) (superclasses (classes_of self.now.units) class) }
    {
        let methods = self.tables.virtuals.declarers(name, descriptor);
        any_final(methods, &self.orders.of(class).superclasses)
    }

    /// The methods that a class declares, by their places; none of what is no class. As long as they are many.
    ///
    /// # Errors
    /// Where there is no memory.
    pub fn methods(&self, alloc: Global, class: u32) -> Result<Vec<MemberRow>, AllocError>
        ensures { IfOk result (λ rows. rows.items ≡ class_rows self.now.texts (methods_of (classes_of self.now.units)) class) }
    {
        method_rows(alloc, &self.texts, class)
    }

    /// The first method of the program that has a name and a descriptor and is neither static nor private: that of the
    /// class of least number. A search by the numbers of the texts; takes no memory.
    pub fn first_virtual(&self, name: u32, descriptor: u32) -> Option<MemberRow>
        ensures { result ≡ first_virtual self.now name descriptor }
    {
        self.virtuals(name, descriptor).first().copied()
    }

    /// The texts by number.
    pub fn texts(&self) -> &ClassTexts<'a>
        ensures { result.now ≡ self.now }
    {
        &self.texts
    }

    /// The orders in which classes are looked through.
    pub fn orders(&self) -> &ClassOrders<'a>
        ensures { result.now ≡ self.now.units }
    {
        &self.orders
    }

    /// Whether a reference names a constructor.
    pub fn is_constructor(&self, reference: ReferenceNumbers) -> bool
        ensures { (r : Reference) → AreNumbers self.now reference r → result ≡ is_initializer r }
    {
        self.initializer == reference.name
    }

    /// The superclass of a class.
    fn superclass(&self, class: u32) -> u32
        ensures superclass { result ≡ superclass_of (classes_of self.now.units) class }
        ensures within { result ≤ length (classes_of self.now.units) }
    {
        self.orders.supers().superclass(class)
    }

    /// Whether a reference names this class or a superclass of it.
    fn names_upward(&self, class: u32, reference: ReferenceNumbers) -> bool
        requires { class ≤ length (classes_of self.now.units) }
        ensures { (r : Reference) → AreNumbers self.now reference r → result ≡ list_any (λ d. d == holder (classes_of self.now.units) r) (superclasses (classes_of self.now.units) class) }
    {
        self.orders.of(class).superclasses.rank(reference.holder) != 0
    }

    /// Whether invokespecial selects from this superclass of a class, where look-up finds a method of these flags.
    fn selects_from(&self, superclass: u32, reference: ReferenceNumbers, flags: u16) -> bool
        requires { superclass ≤ length (classes_of self.now.units) }
        ensures { (r : Reference) → AreNumbers self.now reference r → result
            ≡ (not (is_initializer r) && (not (has flags static_flag || has flags private_flag) && list_any (λ d. d == holder (classes_of self.now.units) r) (superclasses (classes_of self.now.units) superclass))) }
    {
        !self.is_constructor(reference)
            && (is_selectable(flags) && self.names_upward(superclass, reference))
    }

    /// The method that invokespecial calls in a class where look-up finds this one (JVMS 6.5, invokespecial): the one
    /// that is selected from the superclass, where a superclass is named and the method is neither static, private nor a
    /// constructor. Takes no memory, and as long as the methods of this name and descriptor are many.
    pub fn special(&self, this: u32, reference: ReferenceNumbers, found: Found) -> Option<Found>
        ensures { (r : Reference) (d : Declared) → AreNumbers self.now reference r → found ≡ found_of d → result ≡ option_map found_of (special (classes_of self.now.units) this r d) }
    {
        let superclass = self.superclass(this);
        if self.selects_from(superclass, reference, found.flags) {
            self.selected(superclass, reference.name, reference.descriptor)
        } else {
            Some(found)
        }
    }
}

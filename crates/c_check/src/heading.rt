//! Headers and their parameters.

ghost use Rattle.std.specs.Prelude.{◌≡◌, ◌&&◌, not, IfOk, OnOk};
ghost use Rattle.std.specs.Option.{option_copied};
ghost use Rattle.c_rules.specs.Judged.{Notes};
ghost use Rattle.c_rules.specs.Scope.{scope_of, start};
ghost use Rattle.c_rules.specs.Table.{called};
ghost use Rattle.c_check.specs.Functions as headers;
ghost use Rattle.c_check.specs.Told.{knowing};

use crate::judge::{Judge, Known};
use c_kernel::{CType, Struct};
use c_rules::scope::Scope;
use c_rules::signature::{Signature, function};
use c_rules::types::{
    is_array_size, is_null, is_struct, is_void, note_specifier, one_object, pointer_to, same_type,
    same_types, specifier_at, type_of,
};
use c_tree::Kind;
use c_tree::tree::{Bound, Heading, Name, Parameter, PlainType, TypeSpecifier};
use indexmap::IndexMap;
use sqlite_items::Items;
use std::alloc::{AllocError, Global};

/// Whether it breaks no rule by itself.
pub fn is_sound(
    alloc: Global,
    structs: &[Struct],
    defined: bool,
    h: &Heading,
) -> Result<bool, AllocError>
    ensures { IfOk result (λ sound. sound ≡ headers.is_sound structs.now defined h.now) }
{
    let mut judge = Judge::new(alloc);
    judge.parts(structs, defined, h)?;
    Ok(judge.mark() == 0 && !is_bad_result(result_of(structs, h)))
}

fn is_word(specifier: &TypeSpecifier, word: PlainType) -> bool
    ensures { result ≡ headers.is_word specifier.now word }
{
    match specifier {
        TypeSpecifier::Plain { plain, .. } => match (*plain, word) {
            (PlainType::Char, PlainType::Char)
            | (PlainType::Int, PlainType::Int)
            | (PlainType::Void, PlainType::Void) => true,
            _ => false,
        },
        TypeSpecifier::Struct { .. } => false,
    }
}

/// The type of a parameter (C99 6.7.5.3).
fn parameter_type(structs: &[Struct], p: &Parameter) -> CType
    ensures { result ≡ headers.parameter_type structs.now p.now }
{
    let c_type = type_of(structs, None, &p.specifier, p.stars);
    match p.array {
        None => c_type,
        Some(_) => pointer_to(c_type),
    }
}

/// The types of a header's parameters.
pub fn types_of(alloc: Global, structs: &[Struct], h: &Heading) -> Result<Items<CType>, AllocError>
    ensures { IfOk result (λ c_types. c_types ≡ headers.types_of structs.now h.now) }
{
    let parameters = parameters_of(h.parameters.as_slice());
    let mut c_types = Items::new(alloc);
    for p in parameters {
        c_types.push(parameter_type(structs, p))?;
    }
    Ok(c_types)
}

/// The type of a function's result.
pub fn result_of(structs: &[Struct], h: &Heading) -> CType
    ensures { result ≡ headers.result_of structs.now h.now }
{
    type_of(structs, None, &h.specifier, h.stars)
}

// `void` alone is no parameter.
fn is_nothing(p: &Parameter) -> bool
    ensures { result ≡ headers.is_nothing p.now }
{
    is_word(&p.specifier, PlainType::Void) && p.stars == 0 && p.name.is_none() && p.array.is_none()
}

// The parameters, if there are any.
fn parameters_of(parameters: &[Parameter]) -> &[Parameter]
    ensures { result.now ≡ headers.parameters_of parameters.now }
{
    match parameters {
        [p] if is_nothing(p) => &[],
        _ => parameters,
    }
}

// ---- its name and types

// Whether its name has an earlier definition.
fn is_second(k: usize, defined: bool, first: Option<&Signature>) -> bool
    ensures { result ≡ headers.is_second k defined (headers.number_in (option_copied first.entry)) }
{
    match first {
        None => false,
        Some(f) => match f.number {
            None => false,
            Some(number) => defined && number != k,
        },
    }
}

fn is_bad_result(c_type: CType) -> bool
    ensures { result ≡ headers.is_bad_result c_type }
{
    is_struct(c_type) || is_null(c_type)
}

// Against the first header of its name.
fn differs(
    alloc: Global,
    structs: &[Struct],
    h: &Heading,
    first: Option<&Signature>,
) -> Result<bool, AllocError>
    ensures { IfOk result (λ differs. differs ≡ headers.differs structs.now h.now (option_copied first.entry)) }
{
    match first {
        None => Ok(false),
        Some(f) => {
            let c_types = types_of(alloc, structs, h)?;
            let same = same_type(result_of(structs, h), f.result)
                && same_types(c_types.as_slice(), f.parameters.as_slice());
            Ok(!same)
        }
    }
}

// ---- main (C99 5.1.2.2.1)

fn is_main(h: &Heading) -> bool
    ensures { result ≡ headers.is_main h.now }
{
    h.name.bytes.as_slice() == b"main".as_slice()
}

// Whether it is one of `main` that isn't a definition of its form.
fn is_bad_main(defined: bool, h: &Heading) -> bool
    ensures { result ≡ (headers.is_main h.now && not (defined && headers.is_mains h.now)) }
{
    is_main(h) && !(defined && is_mains(h))
}

fn is_mains(h: &Heading) -> bool
    ensures { result ≡ headers.is_mains h.now }
{
    is_word(&h.specifier, PlainType::Int)
        && h.stars == 0
        && are_mains(parameters_of(h.parameters.as_slice()))
}

// `int` and `char **` or `char *[]`, each with a name.
fn are_mains(parameters: &[Parameter]) -> bool
    ensures { result ≡ headers.are_mains parameters.now }
{
    match parameters {
        [] => true,
        [count, vector] => is_count(count) && is_vector(vector),
        _ => false,
    }
}

fn is_count(p: &Parameter) -> bool
    ensures { result ≡ headers.is_count p.now }
{
    is_word(&p.specifier, PlainType::Int) && p.stars == 0 && p.name.is_some() && p.array.is_none()
}

fn is_vector(p: &Parameter) -> bool
    ensures { result ≡ headers.is_vector p.now }
{
    let stars = if p.array.is_some() { 1 } else { 2 };
    is_word(&p.specifier, PlainType::Char) && p.stars == stars && p.name.is_some()
}

// ---- parameters

// Its name, or its type where it has none.
fn parameter_at(p: &Parameter) -> u32
    ensures { result ≡ headers.parameter_at p.now }
{
    match &p.name {
        None => specifier_at(&p.specifier),
        Some(name) => name.at,
    }
}

fn is_named_here(scope: &Scope, name: &Option<Name>) -> bool
    ensures { result ≡ headers.is_named_here (scope_of scope.now) name.now }
{
    match name {
        None => false,
        Some(name) => scope.is_here(name.bytes.as_slice()),
    }
}

fn is_bad_bound(bound: &Option<Bound>) -> bool
    ensures { result ≡ headers.is_bad_bound bound.now }
{
    match bound {
        None => false,
        Some(bound) => match bound {
            Bound::Open => false,
            Bound::Size(n) => !is_array_size(n.value),
        },
    }
}

// Void, a pointer to it or a struct, or without a name in a definition.
fn is_unfit(structs: &[Struct], defined: bool, p: &Parameter) -> bool
    ensures { result ≡ headers.is_unfit structs.now defined p.now }
{
    let c_type = parameter_type(structs, p);
    is_void(c_type) || is_null(c_type) || is_struct(c_type) || (defined && p.name.is_none())
}

// A parameter comes into scope; those of main are no variables.
fn with_parameter(
    alloc: Global,
    structs: &[Struct],
    main: bool,
    p: &Parameter,
    scope: &mut Scope,
) -> Result<(), AllocError>
    ensures { OnOk result (scope_of scope.new ≡ headers.with_parameter structs.now main p.now (scope_of scope.old)) }
{
    match &p.name {
        None => Ok(()),
        Some(name) => {
            let bytes = name.bytes.as_slice();
            if main {
                return scope.hide(alloc, bytes);
            }
            let kind = one_object(alloc, structs, parameter_type(structs, p));
            scope.declare(alloc, bytes, kind)
        }
    }
}

impl Judge {
    /// The rules of a header, and the names of its parameters in scope.
    #[tactic(auto, using(std::proofs::Common::append_assoc))]
    pub fn heading(
        &mut self,
        known: Known<'_>,
        k: usize,
        defined: bool,
        h: &Heading,
    ) -> Result<Scope, AllocError>
        ensures scope { IfOk result (λ scope. scope_of scope ≡ headers.with_parameters known.entry.structs.now (headers.is_main h.now) start (headers.parameters_of h.now.parameters)) }
        ensures breaches { OnOk result (Notes self.old.breaches self.new.breaches (knowing known.entry headers.heading_rules k defined h.now)) }
    {
        let mark = self.mark();
        let scope = self.parts(known.structs, defined, h)?;
        let broke = self.broke(mark);
        self.note_name(known.functions, k, defined, h)?;
        if broke {
            return Ok(scope);
        }
        self.note_types(known, h)?;
        Ok(scope)
    }

    // The rules of its parts, and the names of its parameters in scope.
    #[tactic(auto, using(std::proofs::Common::append_assoc))]
    fn parts(&mut self, structs: &[Struct], defined: bool, h: &Heading) -> Result<Scope, AllocError>
        ensures scope { IfOk result (λ scope. scope_of scope ≡ headers.with_parameters structs.now (headers.is_main h.now) start (headers.parameters_of h.now.parameters)) }
        ensures breaches { OnOk result (Notes self.old.breaches self.new.breaches (headers.parts_rules structs.now defined h.now)) }
    {
        note_specifier(&mut self.breaches, structs, None, &h.specifier)?;
        let parameters = parameters_of(h.parameters.as_slice());
        self.into_scope(structs, is_main(h), defined, parameters)
    }

    #[tactic(auto, using(std::proofs::Common::append_assoc))]
    fn note_name(
        &mut self,
        functions: &IndexMap<Vec<u8>, Signature>,
        k: usize,
        defined: bool,
        h: &Heading,
    ) -> Result<(), AllocError>
        ensures { OnOk result (Notes self.old.breaches self.new.breaches (headers.name_rules (called functions.now.entries) k defined h.now)) }
    {
        let first = function(functions, h.name.bytes.as_slice());
        let second = is_second(k, defined, first);
        self.rule(second, Kind::Redeclared, h.name.at)?;
        self.rule(is_bad_main(defined, h), Kind::BadMain, h.name.at)
    }

    #[tactic(auto, using(std::proofs::Common::append_assoc))]
    fn note_types(&mut self, known: Known<'_>, h: &Heading) -> Result<(), AllocError>
        ensures { OnOk result (Notes self.old.breaches self.new.breaches (knowing known.entry headers.type_rules h.now)) }
    {
        let at = h.name.at;
        let bad = is_bad_result(result_of(known.structs, h));
        self.rule(bad, Kind::IncompleteType, at)?;
        let first = function(known.functions, h.name.bytes.as_slice());
        let differs = differs(self.alloc, known.structs, h, first)?;
        self.rule(differs, Kind::PrototypeDiffers, at)
    }

    // The rules of parameters, and their names in scope.
    #[tactic(auto, using(std::proofs::Common::append_assoc))]
    fn into_scope(
        &mut self,
        structs: &[Struct],
        main: bool,
        defined: bool,
        parameters: &[Parameter],
    ) -> Result<Scope, AllocError>
        ensures scope { IfOk result (λ scope. scope_of scope ≡ headers.with_parameters structs.now main start parameters.now) }
        ensures breaches { OnOk result (Notes self.old.breaches self.new.breaches (headers.parameters_rules structs.now main defined start parameters.now)) }
    {
        let mut scope = Scope::new(self.alloc);
        for p in parameters {
            self.note_parameter(structs, defined, &scope, p)?;
            with_parameter(self.alloc, structs, main, p, &mut scope)?;
        }
        Ok(scope)
    }

    #[tactic(auto, using(std::proofs::Common::append_assoc))]
    fn note_parameter(
        &mut self,
        structs: &[Struct],
        defined: bool,
        scope: &Scope,
        p: &Parameter,
    ) -> Result<(), AllocError>
        ensures { OnOk result (Notes self.old.breaches self.new.breaches (headers.parameter_rules structs.now defined (scope_of scope.now) p.now)) }
    {
        let at = parameter_at(p);
        let mark = self.mark();
        note_specifier(&mut self.breaches, structs, None, &p.specifier)?;
        let broke = self.broke(mark);
        self.rule(is_named_here(scope, &p.name), Kind::Redeclared, at)?;
        if broke {
            return Ok(());
        }
        self.rule(is_bad_bound(&p.array), Kind::ArraySize, at)?;
        self.rule(is_unfit(structs, defined, p), Kind::IncompleteType, at)
    }
}

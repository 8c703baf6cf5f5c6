//! Calls of MPI.

ghost use Rattle.std.specs.Prelude.{◌≡◌, ◌∷◌, [], ◌++◌, IfOk, OnOk, map};
ghost use Rattle.std.specs.Option.{option_copied};
ghost use Rattle.c_rules.specs.Judged as nodes;
ghost use Rattle.c_rules.specs.Judged.{Notes};
ghost use Rattle.c_rules.specs.Roles.{roles_rules, roles_values};
ghost use Rattle.c_rules.specs.Scope.{scope_of};
ghost use Rattle.c_check.specs.Mpi as mpi;
ghost use Rattle.c_check.specs.Statement as walk;
ghost use Rattle.c_check.specs.Told.{Tells, among};

use crate::judge::{Answer, Judge, Names};
use crate::parts::gather;
use c_kernel::program::{MpiCall as TypedCall, MpiFunction, Stmt as Typed};
use c_rules::found::Found;
use c_rules::rules::{Role, note_roles, roles_of, roles_values};
use c_rules::scope::{Entity, Scope};
use c_tree::tree::{Buffer, Expr, MpiCall, Name, Status};
use c_tree::{Datatype as Word, Kind};
use mpi_words::Datatype;
use sqlite_items::{Boxed, Items};
use std::alloc::{AllocError, Global};

// ---- the function, the arguments and the names

fn kind_of(word: Word) -> Datatype
    ensures { result ≡ mpi.kind_of word }
{
    match word {
        Word::Chars => Datatype::Char,
        Word::Ints => Datatype::Int,
        Word::Longs => Datatype::Long,
    }
}

// The function; the collective calls aren't built yet.
fn function_of(c: &MpiCall) -> Option<MpiFunction>
    ensures { result ≡ mpi.function_of c.now }
{
    match c {
        MpiCall::Init { .. } => Some(MpiFunction::Init),
        MpiCall::Finalize(_) => Some(MpiFunction::Finalize),
        MpiCall::CommRank { .. } => Some(MpiFunction::CommRank),
        MpiCall::CommSize { .. } => Some(MpiFunction::CommSize),
        MpiCall::Send { buffer, .. } => Some(MpiFunction::Send(kind_of(buffer.datatype.datatype))),
        MpiCall::Recv { buffer, .. } => Some(MpiFunction::Recv(kind_of(buffer.datatype.datatype))),
        MpiCall::GetCount { datatype, .. } => {
            Some(MpiFunction::GetCount(kind_of(datatype.datatype)))
        }
        _ => None,
    }
}

// The arguments of a message: its buffer, the rank at its other end and its tag.
fn message<'c>(
    alloc: Global,
    buffer: &'c Buffer,
    rank: &'c Expr,
    tag: &'c Expr,
) -> Result<Vec<&'c Expr>, AllocError>
    ensures { IfOk result (λ es. map (λ e. e.now) es.items ≡ buffer.now.start ∷ buffer.now.count ∷ rank.now ∷ tag.now ∷ []) }
{
    Ok(vec![in alloc; buffer.start.get(), buffer.count.get(), rank, tag]?)
}

// And its status.
fn message_with<'c>(
    alloc: Global,
    buffer: &'c Buffer,
    rank: &'c Expr,
    tag: &'c Expr,
    status: &'c Expr,
) -> Result<Vec<&'c Expr>, AllocError>
    ensures { IfOk result (λ es. map (λ e. e.now) es.items ≡ buffer.now.start ∷ buffer.now.count ∷ rank.now ∷ tag.now ∷ status.now ∷ []) }
{
    Ok(vec![in alloc; buffer.start.get(), buffer.count.get(), rank, tag, status]?)
}

// The arguments that have values, in the text's order.
fn arguments_of(alloc: Global, c: &MpiCall) -> Result<Vec<&Expr>, AllocError>
    ensures { IfOk result (λ es. map (λ e. e.now) es.items ≡ mpi.arguments_of c.now) }
{
    match c {
        MpiCall::CommRank { result, .. } | MpiCall::CommSize { result, .. } => {
            Ok(vec![in alloc; result]?)
        }
        MpiCall::Send {
            buffer,
            destination,
            tag,
            ..
        } => message(alloc, buffer, destination, tag),
        MpiCall::Recv {
            buffer,
            source,
            tag,
            status,
            ..
        } => match status {
            Status::Ignore(_) => message(alloc, buffer, source, tag),
            Status::Given(e) => message_with(alloc, buffer, source, tag, e.get()),
        },
        MpiCall::GetCount { status, result, .. } => match status {
            Status::Ignore(_) => Ok(vec![in alloc; result]?),
            Status::Given(e) => Ok(vec![in alloc; e.get(), result]?),
        },
        _ => Ok(Vec::new(alloc)),
    }
}

// The names whose addresses `MPI_Init` gets.
fn names_of(alloc: Global, c: &MpiCall) -> Result<Items<Items<u8>>, AllocError>
    ensures { IfOk result (λ names. names ≡ mpi.names_of c.now) }
{
    let mut names = Items::new(alloc);
    if let MpiCall::Init {
        arguments: Some((count, vector)),
        ..
    } = c
    {
        names.push(Items::from_slice(alloc, count.bytes.as_slice())?)?;
        names.push(Items::from_slice(alloc, vector.bytes.as_slice())?)?;
    }
    Ok(names)
}

// Whether it is the parameter of main with this number.
fn is_parameter(number: usize, entity: Option<&Entity>) -> bool
    ensures { result ≡ mpi.is_parameter number (option_copied entity.entry) }
{
    match entity {
        Some(Entity::Parameter(k)) => *k == number,
        Some(Entity::Variable(_)) | None => false,
    }
}

// ---- the call, by what its arguments are found to be

fn typed(
    alloc: Global,
    c: &MpiCall,
    function: MpiFunction,
    roles: &[Role],
    vs: Items<Boxed<Found>>,
) -> Result<Boxed<Typed>, AllocError>
    ensures { IfOk result (λ call. call ≡ Typed.Mpi (record { function = function; names = mpi.names_of c.now; arguments = roles_values roles.now vs })) }
{
    let names = names_of(alloc, c)?;
    let arguments = roles_values(alloc, roles, vs)?;
    Boxed::new(
        alloc,
        Typed::Mpi(TypedCall {
            function,
            names,
            arguments,
        }),
    )
}

impl Judge {
    /// A call of MPI (MPI 3.1 3.2, 8.7).
    #[tactic(auto, using(std::proofs::Common::append_assoc))]
    pub fn mpi_call(&mut self, names: Names<'_>, c: &MpiCall) -> Answer<Boxed<Typed>>
        ensures { IfOk result (λ found. Tells self.old self.new found (among names.entry walk.mpi_call c.now)) }
    {
        match function_of(c) {
            None => self.refuse(Kind::NotYet, 0),
            Some(function) => {
                let arguments = arguments_of(self.alloc, c)?;
                match self.values(names, arguments.as_slice())? {
                    None => Ok(None),
                    Some(vs) => self.call_of(names.scope, c, function, vs),
                }
            }
        }
    }

    // What the arguments are found to be.
    #[tactic(auto, using(std::proofs::Common::append_assoc))]
    fn values(&mut self, names: Names<'_>, es: &[&Expr]) -> Answer<Items<Boxed<Found>>>
        ensures { IfOk result (λ found. Tells self.old self.new found (among names.entry walk.values (map (λ e. e.now) es.now))) }
    {
        let mut found = Some(Items::new(self.alloc));
        for e in es {
            let one = self.expression(names, e)?;
            found = gather(found, one)?;
        }
        Ok(found)
    }

    #[tactic(auto, using(crate::proofs::Silences::broken, crate::proofs::Silences::unbroken), unfolding(crate::specs::Mpi::called))]
    fn call_of(
        &mut self,
        scope: &Scope,
        c: &MpiCall,
        function: MpiFunction,
        vs: Items<Boxed<Found>>,
    ) -> Answer<Boxed<Typed>>
        ensures { IfOk result (λ found. Tells self.old self.new found (mpi.called (mpi.word_rules (scope_of scope.now) c.now) (mpi.names_of c.now) function vs)) }
    {
        let roles = roles_of(self.alloc, function)?;
        let mark = self.mark();
        self.note_call(scope, c, roles.as_slice(), vs.as_slice())?;
        if self.broke(mark) {
            return Ok(None);
        }
        Ok(Some(typed(self.alloc, c, function, roles.as_slice(), vs)?))
    }

    // The rules of words and names, and where none is broken those of the arguments.
    #[tactic(auto, using(crate::proofs::Silences::unsaid, crate::proofs::Silences::told))]
    fn note_call(
        &mut self,
        scope: &Scope,
        c: &MpiCall,
        roles: &[Role],
        vs: &[Boxed<Found>],
    ) -> Result<(), AllocError>
        ensures { let words = mpi.word_rules (scope_of scope.now) c.now in OnOk result (Notes self.old.breaches self.new.breaches (words ++ nodes.unless_broken words (roles_rules roles.now vs.now))) }
    {
        let mark = self.mark();
        self.note_words(scope, c)?;
        if self.broke(mark) {
            return Ok(());
        }
        note_roles(&mut self.breaches, roles, vs)
    }

    // ---- words and names

    fn note_words(&mut self, scope: &Scope, c: &MpiCall) -> Result<(), AllocError>
        ensures { OnOk result (Notes self.old.breaches self.new.breaches (mpi.word_rules (scope_of scope.now) c.now)) }
    {
        match c {
            MpiCall::Init { arguments, .. } => self.note_names(scope, arguments),
            MpiCall::GetCount { status, .. } => self.note_status(status),
            _ => Ok(()),
        }
    }

    // The names at `MPI_Init` are those of main's parameters, in order.
    #[tactic(auto, using(std::proofs::Common::append_assoc))]
    fn note_names(&mut self, scope: &Scope, names: &Option<(Name, Name)>) -> Result<(), AllocError>
        ensures { OnOk result (Notes self.old.breaches self.new.breaches (mpi.init_rules (scope_of scope.now) names.now)) }
    {
        match names {
            None => Ok(()),
            Some((count, vector)) => {
                self.note_parameter_name(scope, 0, count)?;
                self.note_parameter_name(scope, 1, vector)
            }
        }
    }

    fn note_parameter_name(
        &mut self,
        scope: &Scope,
        number: usize,
        name: &Name,
    ) -> Result<(), AllocError>
        ensures { OnOk result (Notes self.old.breaches self.new.breaches (mpi.name_rules (scope_of scope.now) number name.now)) }
    {
        let right = is_parameter(number, scope.find(name.bytes.as_slice()));
        self.rule(!right, Kind::BadMain, name.at)
    }

    // `MPI_Get_count` has a status.
    fn note_status(&mut self, status: &Status) -> Result<(), AllocError>
        ensures { OnOk result (Notes self.old.breaches self.new.breaches (mpi.status_rules status.now)) }
    {
        match status {
            Status::Ignore(at) => self.rule(true, Kind::Datatype, *at),
            Status::Given(_) => Ok(()),
        }
    }
}

//! The beginning of a job.

ghost use Rattle.std.specs.Prelude.{◌≡◌, ◌<◌, ℕ, [], IfOk};
ghost use Rattle.core_laws.specs.CoreEvents.{start_of};
ghost use Rattle.core_laws.specs.CoreTies.{placed};
ghost use Rattle.core_laws.specs.Pausing.{stepping};
ghost use Rattle.core_laws.specs.Ties.{AreBy};
ghost use Rattle.job_network.specs.Members.{stepping_of};
ghost use Rattle.job_network.specs.Networks.{IsNet, IsPlaced};
ghost use Rattle.job_core.specs.Beginning.{IsBegun, nothing_sent};
ghost use Rattle.job_core.specs.Cores.{IsCore, StandsSo};

use crate::job::Core;
use c3_base::NoMemory;
use epoch_protocol::Layer;
use job_network::{Member, Network, Pairs, Process, Queue};
use mpi_queues::Mailbox;
use std::alloc::Global;
use std::rc::Rc;
use wave_commit::Wave;

impl<P: Process> Core<P> {
    /// So many ranks at their beginning.
    pub fn begin(alloc: Global, code: &Rc<P::Code>, ranks: u16) -> Result<Core<P>, NoMemory>
        requires ranks { 0 < ranks }
        requires right { P.right code.now.value }
        ensures begins { IfOk result (λ core. IsCore P.ended P.bytes P.among ranks (λ r. 0) core (start_of (stepping (stepping_of (λ r. P.begun code.now.value r ranks) P.turned P.answered P.again)))) }
        ensures stands { IfOk result (StandsSo P.ended P.bytes P.among P.serial P.turned P.answered P.again 0) }
        ensures events { IfOk result (λ core. core.events ≡ 0) }
    {
        let members = members(alloc, code, ranks)?;
        let killed = Vec::from_elem(alloc, false, usize::from(ranks))?;
        let network = network(alloc, ranks)?;
        Ok(Core {
            alloc,
            members,
            killed,
            network,
            events: 0,
        })
    }
}

// Each rank at its beginning.
fn members<P: Process>(
    alloc: Global,
    code: &Rc<P::Code>,
    ranks: u16,
) -> Result<Vec<Member<P>>, NoMemory>
    requires { P.right code.now.value }
    ensures { IfOk result (λ members. AreBy (IsBegun P.ended P.bytes P.among P.serial ranks) ranks members.items (λ r. P.begun code.now.value r ranks)) }
{
    let mut members = Vec::new(alloc);
    for rank in 0..ranks {
        members.push(member(alloc, code, rank, ranks)?)?;
    }
    Ok(members)
}

// A rank at its beginning.
fn member<P: Process>(
    alloc: Global,
    code: &Rc<P::Code>,
    rank: u16,
    ranks: u16,
) -> Result<Member<P>, NoMemory>
    requires rank { rank < ranks }
    requires right { P.right code.now.value }
    ensures { IfOk result (λ member. IsBegun P.ended P.bytes P.among P.serial ranks member (P.begun code.now.value rank ranks)) }
{
    Ok(Member {
        machine: P::begin(alloc, code, rank, ranks)?,
        mail: Mailbox::new(alloc),
        bytes: 0,
        ops: 0,
        log: Queue::new(alloc),
        left: 0,
        end: None,
    })
}

// What lies between ranks at their beginning.
fn network(alloc: Global, ranks: u16) -> Result<Network, NoMemory>
    ensures { IfOk result (λ network. IsNet ranks network nothing_sent (λ r. [])) }
{
    let layers = layers(alloc, ranks)?;
    let channels = Pairs::new(alloc, ranks)?;
    let controls = Pairs::new(alloc, ranks)?;
    let wave = Wave::new(alloc, ranks)?;
    Ok(Network {
        ranks,
        layers,
        channels,
        controls,
        line: 0,
        wave,
    })
}

// Each rank's layer at its beginning.
fn layers(alloc: Global, ranks: u16) -> Result<Vec<Layer>, NoMemory>
    ensures { IfOk result (λ layers. AreBy (IsPlaced ranks) ranks layers.items (placed nothing_sent.layer (λ r. []))) }
{
    let mut layers = Vec::new(alloc);
    for rank in 0..ranks {
        layers.push(Layer::new(alloc, ranks, rank)?)?;
    }
    Ok(layers)
}

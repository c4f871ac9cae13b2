//! What becomes of a site in a call, by the fate.

ghost use Rattle.std.specs.Prelude.{◌≡◌, IfOk};
ghost use Rattle.schedule.specs.declared.fate.Fate.TheVariants as fates;
ghost use Rattle.sim_stations.specs.Calls.{input_of};
ghost use Rattle.sim_stations.specs.Fates.{before_stop};
ghost use Rattle.sim_stations.specs.Fuses.{fuse_in};
ghost use Rattle.sim_stations.specs.Stations.{Undergoes};
ghost use Rattle.sim_stations.specs.declared.run_state.RunState.TheVariants.{Running};

use crate::site_call::{SiteCall, make};
use crate::told::{Told, told_of};
use cell_device::{Fuse, How, MemoryCell};
use schedule::{DeviceCall, Fate};
use site::Site;
use std::alloc::{AllocError, Global};

/// Makes a call of a running site, up to where its fate stops it, and gives its outcome. `Err`: out
/// of memory.
pub(crate) fn undergo(
    alloc: Global,
    site: &mut Site<MemoryCell>,
    call: &SiteCall,
    fate: Fate,
) -> Result<Told, AllocError>
    ensures { IfOk result (λ told. Undergoes site.old.book.owner
        (input_of site.old.book.owner.members.federation call.now) (before_stop fate)
        (Running site.old) (Running site.new) told) }
{
    match fate {
        Fate::Whole | Fate::StopsAfter(_) => goes_on(alloc, site, call),
        Fate::FailsIn(device, kept) => fails_in(alloc, site, call, device, How::Fail, kept),
        Fate::StopsIn(device, kept) => fails_in(alloc, site, call, device, How::Stop, kept),
    }
}

// The call is done, and the site goes on.
fn goes_on(alloc: Global, site: &mut Site<MemoryCell>, call: &SiteCall) -> Result<Told, AllocError>
    ensures { IfOk result (λ told. Undergoes site.old.book.owner
        (input_of site.old.book.owner.members.federation call.now) fates.Whole
        (Running site.old) (Running site.new) told) }
{
    let number = site.number().number();
    told_of(alloc, number, call, make(site, call))
}

// This device call fails if the call commits a record; afterwards no fuse is set.
fn fails_in(
    alloc: Global,
    site: &mut Site<MemoryCell>,
    call: &SiteCall,
    device: DeviceCall,
    how: How,
    kept: u32,
) -> Result<Told, AllocError>
    ensures { IfOk result (λ told. Undergoes site.old.book.owner
        (input_of site.old.book.owner.members.federation call.now) (fates.FailsIn device kept)
        (Running site.old) (Running site.new) told) }
{
    let number = site.number().number();
    site.set_fuse(Some(fuse_in(device, how, kept)));
    let answer = make(site, call);
    site.set_fuse(None);
    told_of(alloc, number, call, answer)
}

// A device call of the next commit fails, and `kept` bytes are kept.
fn fuse_in(device: DeviceCall, how: How, kept: u32) -> Fuse
    ensures { result ≡ fuse_in device how kept }
{
    let call = match device {
        DeviceCall::Append => 1,
        DeviceCall::Sync => 2,
    };
    let kept = kept as usize;
    Fuse { call, how, kept }
}

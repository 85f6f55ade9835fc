//! The file that the map stands in, replaced whole by its shadow.
ghost use Rattle.std.specs.Prelude.{◌≡◌, [], OnOk, IsSome};
ghost use Rattle.pt_host.specs.World.{IsQuiet};
ghost use Rattle.pt_host.specs.Counts.{DiskCall};
ghost use Rattle.pt_host.specs.Images.{IsHeld};
ghost use Rattle.pt_host.specs.Replacement.{AsBeforeBut, IsBeforeOrAfter, IsClear, IsReady};
ghost use Rattle.pt_left.specs.Left.{whole_name, shadow_name};

use crate::disk::clear_shadow;
use pt_host::{Host, HostFail};

/// Replaces `whole.map` by these bytes. Whatever a stop leaves, it is the old file or the new one.
pub(crate) fn replace_whole<H: Host>(host: &mut H, bytes: &[u8]) -> Result<(), HostFail>
    requires entered { H.tells → IsSome (H.world host.old).dir }
    requires settled { H.tells → (H.world host.old).now.fs.pending ≡ [] }
    ensures held { OnOk result (H.tells → IsHeld (H.world host.new).now.fs whole_name bytes.now) }
    ensures settled { OnOk result (H.tells → (H.world host.new).now.fs.pending ≡ []) }
    ensures quiet { H.tells → IsQuiet (H.world host.old) (H.world host.new) (IsBeforeOrAfter (H.world host.old).now.fs whole_name shadow_name bytes.now) }
    ensures counts { DiskCall (H.counts host.old) (H.counts host.new) result }
{
    clear_shadow(host)?;
    fill_shadow(host, bytes)?;
    host.rename(&pt_left::shadow(), &pt_left::whole())?;
    host.sync_names()?;
    Ok(())
}

/// Makes a shadow of these bytes.
fn fill_shadow<H: Host>(host: &mut H, bytes: &[u8]) -> Result<(), HostFail>
    requires { H.tells → IsClear (H.world host.old).now.fs shadow_name }
    ensures ready { OnOk result (H.tells → IsReady (H.world host.new).now.fs shadow_name bytes.now) }
    ensures quiet { H.tells → IsQuiet (H.world host.old) (H.world host.new) (AsBeforeBut (H.world host.old).now.fs shadow_name) }
    ensures counts { DiskCall (H.counts host.old) (H.counts host.new) result }
{
    let shadow = pt_left::shadow();
    host.create(&shadow)?;
    host.write_at(&shadow, 0, bytes)?;
    host.sync(&shadow)?;
    Ok(())
}

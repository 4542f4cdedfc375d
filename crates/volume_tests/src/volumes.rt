// Small volumes with given payloads.
ghost use Rattle.std.specs.Prelude.{◌≡◌, [], length, IfOk, OnOk};
ghost use Rattle.frame_cut.specs.Cuts.{IsCut};
ghost use Rattle.frame_cut.specs.Traces.{count_of};
ghost use Rattle.frame_cut.specs.Readings.{as_written};

use edit_overlay::Overlay;
use frame_cut::{Limits, Reading};
use room::Room;
use std::alloc::Global;
use std::test::Fail;
use volume_loading::Loading;

// The volume of the file, in which the traces have these payloads.
pub(crate) fn volume_of<T: Copy>(
    alloc: Global,
    file: Vec<u8>,
    limits: Limits,
    payloads: &[T],
) -> Result<Overlay<T>, Fail>
    ensures cut { IfOk result (λ o. IsCut file.items as_written limits o.volume) }
    ensures payloads { IfOk result (λ o. o.payloads ≡ payloads.now) }
{
    let mut loading = Loading::from_bytes(
        &mut Room::new(alloc),
        file,
        Reading::as_written(),
        limits,
    )?;
    match give_each(alloc, &mut loading, payloads) {
        Ok(()) => Ok(loading.finish()),
        Err(fail) => {
            loading.close();
            Err(fail)
        }
    }
}

// Gives each trace its payload, where there are as many.
fn give_each<T: Copy>(alloc: Global, loading: &mut Loading<T>, payloads: &[T]) -> Result<(), Fail>
    requires none { loading.old.payloads ≡ [] }
    ensures volume { loading.new.volume ≡ loading.old.volume }
    ensures each { OnOk result (length payloads.now ≡ count_of loading.old.volume) }
    ensures payloads { OnOk result (loading.new.payloads ≡ payloads.now) }
{
    if payloads.len() != loading.count() as usize {
        return Err(Fail::from("not a payload for each trace"));
    }
    push_each(alloc, loading, payloads)
}

// Gives each trace its payload.
fn push_each<T: Copy>(alloc: Global, loading: &mut Loading<T>, payloads: &[T]) -> Result<(), Fail>
    requires none { loading.old.payloads ≡ [] }
    requires each { length payloads.now ≡ count_of loading.old.volume }
    ensures volume { loading.new.volume ≡ loading.old.volume }
    ensures payloads { OnOk result (loading.new.payloads ≡ payloads.now) }
{
    for payload in payloads {
        loading.push(&mut Room::new(alloc), *payload)?;
    }
    Ok(())
}

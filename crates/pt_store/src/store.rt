ghost use Rattle.std.specs.Prelude.{◌≡◌, ℕ, List as Listed, false, is_some, length, map, Some, Err, IfOk, IsSome, IsTrue, Contains, slice_get};
ghost use Rattle.std.specs.Option.{option_map};
ghost use Rattle.pt_host.specs.Disk.{EachImage, IsAtRest, shown};
ghost use Rattle.pt_host.specs.Listed.{FileList, AreRising, by_name};
ghost use Rattle.pt_host.specs.World.{World, IsQuiet};
ghost use Rattle.pt_left.specs.Left.{serials_name, IsLeft, IsWhole, NoneLeft, AsBeforeButOwn};
ghost use Rattle.std.specs.List.Sorted.{IsStrictlySortedBy-prop};
ghost use Rattle.pt_store.specs.Stops.{ByStop, IsCounted, IfBad};
ghost use Rattle.pt_store.specs.Batch.{IsBatch, appended};
ghost use Rattle.pt_store.specs.Reshape.{HasNames, IsReshape, IsReshaped, held, reshaped};
ghost use Rattle.pt_store.specs.Entries.{AreInOrder, length_in};

use crate::Stop;
use crate::changes::{appended, reshaped};
use crate::disk::{clear_shadow, read_entries};
use crate::entry::{Entry, entry_of, length_of, name_of};
use crate::fetch::read_entry;
use crate::serials::add_serials;
use crate::spell::spell;
use crate::swap::replace_whole;
use pt_ddl_log::Chain;
use pt_host::{FileList, Host, Name};
use pt_plain::List;
use std::alloc::Global;

/// The map that a directory holds in one file: the names of its files, with their lengths. Their bytes stay on the disk.
///
/// A store is live until a call that changes the map answers `Fault`. From then on it is of no use: what the directory holds
/// is the old map or the new one, and only another `attach` tells which.
#[derive(Debug, Drop)]
pub struct Store {
    alloc: Global,
    entries: List<Entry>,
    live: bool,
    ghost order: { AreInOrder entries } by { IsStrictlySortedBy-prop _ _ },
}

impl Store {
    ghost use Rattle.pt_store.specs.Step.{HasSizes, IsLook, IsStep, OnlyClears};
    ghost use Rattle.pt_store.specs.Store.{IsStore, HasMap, is_live, sizes};

    /// The store of the directory that was entered, whose files stand at rest. A shadow that an earlier run left is
    /// removed first. `Bad`, of `whole.map` and place 0, exactly where that file spells no map.
    pub fn attach<H: Host>(alloc: Global, host: &mut H) -> Result<Store, Stop>
        requires entered { H.tells → IsSome (H.world host.old).dir }
        requires rest { H.tells → IsAtRest (H.world host.old).now.fs }
        // The store stands for the map that the directory stood for.
        ensures stands { IfOk result (λ store. H.tells → (files : FileList) × EachImage (H.world host.old).now.fs (IsLeft files) × IsStore store files (H.world host.new)) }
        // At every moment, whatever is answered, a leftover shadow is removed at most.
        ensures clears { H.tells → OnlyClears (H.world host.old) (H.world host.new) }
        ensures bad { IfBad result (λ name place. IsWhole name place × (H.tells → NoneLeft (shown (H.world host.old).now.fs))) }
        ensures live { IfOk result (λ store. IsTrue (is_live store)) }
        ensures serials { IfOk result (λ store. IsSome (length_in (sizes store) serials_name)) }
        ensures counts { IsCounted (H.counts host.old) (H.counts host.new) result }
    {
        clear_shadow(host)?;
        let mut entries = read_entries(alloc, host)?;
        add_serials(&mut entries)?;
        Ok(Store {
            alloc,
            entries,
            live: true,
        })
    }

    /// Whether no call that changes the map has answered `Fault`.
    pub fn is_live(&self) -> bool
        ensures { result ≡ is_live self.now }
    {
        self.live
    }

    /// How many files the map has.
    pub fn count(&self) -> usize
        ensures value { result ≡ length (sizes self.now) }
        ensures map { (files : FileList) (w : World) → IsStore self.now files w → result ≡ length files }
    {
        self.entries.items().len()
    }

    /// The i-th name, counted from 0 in rising byte order. `None` exactly where there are no more than i.
    pub fn name_at(&self, i: usize) -> Option<Name>
        ensures value { result ≡ option_map (λ size. size.0) (slice_get (sizes self.now) i) }
        ensures map { (files : FileList) (w : World) → IsStore self.now files w → result ≡ option_map (λ file. file.0) (slice_get files i) }
    {
        name_of(self.entries.items(), i)
    }

    /// The length of the file of this name in bytes. `None` exactly where the map has no such file.
    pub fn length(&self, name: &Name) -> Option<u64>
        ensures value { result ≡ length_in (sizes self.now) name.now }
        ensures map { (files : FileList) (w : World) → IsStore self.now files w → result ≡ option_map length (by_name files name.now) }
    {
        length_of(self.entries.items(), name)
    }

    /// The bytes of the file of this name, which the map has.
    pub fn read<H: Host>(&self, host: &mut H, name: &Name) -> Result<Vec<u8>, Stop>
        requires live { IsTrue (is_live self.now) }
        requires held { IsSome (length_in (sizes self.now) name.now) }
        requires stands { H.tells → HasMap self.now (H.world host.old) }
        ensures bytes { IfOk result (λ v. H.tells → (files : FileList) → IsStore self.now files (H.world host.old) → by_name files name.now ≡ Some v.items) }
        // It touches no file, and the store stands for its map still.
        ensures told { H.tells → (files : FileList) → IsStore self.now files (H.world host.old) → IsLook self.now files (H.world host.old) (H.world host.new) }
        ensures bad { IfBad result (λ name place. IsWhole name place × (H.tells → ⊥)) }
        ensures counts { IsCounted (H.counts host.old) (H.counts host.new) result }
    {
        let entry = entry_of(self.entries.items(), name).unwrap();
        let bytes = read_entry(self.alloc, host, entry)?;
        Ok(bytes)
    }

    /// Adds the bytes of each part of the batch at the end of the file of its name. `NoMemory` leaves the map and the store
    /// as they were. After `Fault` the store is no longer live.
    pub fn append<H: Host>(&mut self, host: &mut H, batch: &FileList) -> Result<(), Stop>
        requires live { IsTrue (is_live self.old) }
        requires batch { IsBatch (sizes self.old) batch.now }
        requires stands { H.tells → HasMap self.old (H.world host.old) }
        // At every moment, whatever is answered, the directory stands for the old map or the one with these bytes.
        ensures told { H.tells → (map : FileList) → IsStore self.old map (H.world host.old) → IsStep self.new map (appended batch.now map) (H.world host.old) (H.world host.new) result }
        // At every moment no other file than its own two has changed.
        ensures others { H.tells → IsQuiet (H.world host.old) (H.world host.new) (AsBeforeButOwn (H.world host.old).now.fs) }
        // Over every host it holds the same names.
        ensures after { ByStop result (IsTrue (is_live self.new) × (map (λ size. size.0) (sizes self.new) ≡ map (λ size. size.0) (sizes self.old))) (self.new ≡ self.old) (is_live self.new ≡ false) }
        ensures bad { IfBad result (λ name place. IsWhole name place × (H.tells → ⊥)) }
        ensures counts { IsCounted (H.counts host.old) (H.counts host.new) result }
    {
        match appended(self.alloc, self.entries.items(), host, batch.items()) {
            Ok(files) => self.replace(host, &files),
            Err(stop) => Err(self.stopped(stop)),
        }
    }

    /// Does the acts of the chain to the map, with the fresh bytes under their shadows. `NoMemory` leaves the map and the
    /// store as they were. After `Fault` the store is no longer live.
    pub fn reshape<H: Host>(
        &mut self,
        host: &mut H,
        fresh: &FileList,
        chain: &Chain,
    ) -> Result<(), Stop>
        requires live { IsTrue (is_live self.old) }
        requires reshape { IsReshape (sizes self.old) fresh.now chain.now }
        requires stands { H.tells → HasMap self.old (H.world host.old) }
        // At every moment, whatever is answered, the directory stands for the old map or what the acts make of it.
        ensures told { H.tells → (map : FileList) → IsStore self.old map (H.world host.old) → (next : FileList) × IsReshaped fresh.now chain.now map next × IsStep self.new map next (H.world host.old) (H.world host.new) result }
        // At every moment no other file than its own two has changed.
        ensures others { H.tells → IsQuiet (H.world host.old) (H.world host.new) (AsBeforeButOwn (H.world host.old).now.fs) }
        // Over every host it holds the names that the acts make of those that it held.
        ensures after { ByStop result (IsTrue (is_live self.new) × ((name : Listed ℕ) → is_some (length_in (sizes self.new) name) ≡ is_some (reshaped fresh.now chain.now (held (sizes self.old)) name))) (self.new ≡ self.old) (is_live self.new ≡ false) }
        ensures bad { IfBad result (λ name place. IsWhole name place × (H.tells → ⊥)) }
        ensures counts { IsCounted (H.counts host.old) (H.counts host.new) result }
    {
        match reshaped(self.alloc, self.entries.items(), host, fresh.items(), chain) {
            Ok(files) => self.replace(host, &files),
            Err(stop) => Err(self.stopped(stop)),
        }
    }

    /// Why a call stopped. After a fault the store is no longer live.
    fn stopped(&mut self, stop: Stop) -> Stop
        ensures same { result ≡ stop }
        ensures after { ByStop {T = Unit {0}} (Err stop) (Unit {0}) (self.new ≡ self.old) (is_live self.new ≡ false) }
    {
        match stop {
            Stop::NoMemory => Stop::NoMemory,
            Stop::Fault => {
                self.live = false;
                Stop::Fault
            }
            Stop::Bad { name, place } => Stop::Bad { name, place },
        }
    }

    /// Puts this map in the place of the old one. `NoMemory` leaves all as it was. After `Fault` the store is no
    /// longer live.
    fn replace<H: Host>(&mut self, host: &mut H, files: &FileList) -> Result<(), Stop>
        requires live { IsTrue (is_live self.old) }
        requires rising { AreRising files.now }
        requires serials { H.tells → Contains (map (λ file. file.0) files.now) serials_name }
        requires stands { H.tells → HasMap self.old (H.world host.old) }
        // At every moment, whatever is answered, the directory stands for the old map or the new one.
        ensures told { H.tells → (old : FileList) → IsStore self.old old (H.world host.old) → IsStep self.new old files.now (H.world host.old) (H.world host.new) result }
        // At every moment no other file than its own two has changed.
        ensures others { H.tells → IsQuiet (H.world host.old) (H.world host.new) (AsBeforeButOwn (H.world host.old).now.fs) }
        ensures after { ByStop result (HasSizes self.new files.now) ((self.new ≡ self.old) × (H.tells → H.world host.new ≡ H.world host.old)) (is_live self.new ≡ false) }
        ensures bad { IfBad result (λ name place. ⊥) }
        ensures counts { IsCounted (H.counts host.old) (H.counts host.new) result }
    {
        let (bytes, entries) = spell(self.alloc, files.items())?;
        self.live = false;
        replace_whole(host, bytes.as_slice())?;
        self.entries = entries;
        self.live = true;
        Ok(())
    }
}

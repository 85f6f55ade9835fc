ghost use Rattle.std.specs.Prelude.{◌≡◌, [], ◌∷◌, ◌++◌, length, slice_get, is_some, map, IfOk, OnOk, IsSome, IsSomeAnd, Some};
ghost use Rattle.std.specs.Map.{remove_entry};
ghost use Rattle.std.specs.Option.{option_copied, option_map};
ghost use Rattle.std.specs.Str.{bytes_eq};
ghost use Rattle.pt_host.specs.Listed.{FileList, by_name};
ghost use Rattle.pt_ast.specs.declared.database.Db.{Db};
ghost use Rattle.pt_left.specs.Left.{IsWhole};
ghost use Rattle.pt_store.specs.Stops.{IfBad, IsCounted};
ghost use Rattle.pt_holds.specs.RowChanges.{IsChangeOf, IsRowChange};

use crate::altering::{altering, exchanging, put_again};
use crate::looking::fitting_rows;
use crate::opening::{read_next, read_tables};
use crate::shaping::{add_last, creating, dropping, take_out};
use crate::strays::check_files;
use crate::tables::{TableDefs, TableName};
use crate::writing::batch_for;
use pt_ast::{Rows, Spot, TableDef};
use pt_holds::{RowChange, file_of};
use pt_host::{Host, Name};
use pt_plain::List;
use pt_store::{Stop, Store};
use pt_value::Ident;
use std::alloc::Global;

/// A directory that was opened: its store, the definitions of its tables, and the serial that the next new row takes.
///
/// A session is live until a call that changes the directory answers `Fault`. From then on it is of no use: the directory holds
/// the database of before the call or the changed one, and only another `begin` tells which.
#[derive(Drop)]
pub struct Session {
    alloc: Global,
    store: Store,
    tables: TableDefs,
    next: u64,
}

impl Session {
    ghost use Rattle.pt_store.specs.Store.{IsStore};
    ghost use Rattle.pt_store.specs.Step.{IsStep};
    ghost use Rattle.pt_host.specs.Disk.{IsAtRest, shown};
    ghost use Rattle.pt_store.specs.Step.{IsLook, OnlyClears};
    ghost use Rattle.pt_db.specs.Spots.{IsSpotOf};
    ghost use Rattle.pt_holds.specs.Bad.{Bad};
    ghost use Rattle.pt_holds.specs.Holds.{HoldsRows, spot_file};
    ghost use Rattle.pt_holds.specs.ShapeChanges.{IsAlter, IsAlterOf, IsCreate, IsCreateOf, IsDropOf, IsExchange, IsExchangeOf};
    ghost use Rattle.pt_session.specs.Directory.{IsDamaged, IsOpened};
    ghost use Rattle.pt_session.specs.Session.{AreRisingNames, AreSpotRows, HasMap, IsOpen, IsOpenAfter, IsOver, IsOverAfter, StandsIn, def_of, is_live, length_of, tables_of};
    ghost use Rattle.pt_session.specs.Leaves.{HasAltered, Leaves};

    /// Opens the directory that was entered, whose files stand at rest: reads the definitions and the counter, and no row file. A
    /// shadow that an earlier run left is removed first. `Bad` where `whole.map` spells no map, a definition or the counter isn't in
    /// its grammar, a definition isn't valid (place 12), or a row file is missing or belongs to no definition (place 0).
    pub fn begin<H: Host>(alloc: Global, host: &mut H) -> Result<Session, Stop>
        requires entered { H.tells → IsSome (H.world host.old).dir }
        requires rest { H.tells → IsAtRest (H.world host.old).now.fs }
        ensures opened { IfOk result (λ session. H.tells → IsOpened session (H.world host.old) (H.world host.new)) }
        // At every moment, whatever is answered, a leftover shadow is removed at most.
        ensures clears { H.tells → OnlyClears (H.world host.old) (H.world host.new) }
        ensures bad { IfBad result (λ name place. H.tells → IsDamaged (shown (H.world host.old).now.fs) name place × IsDamaged (shown (H.world host.new).now.fs) name place) }
        ensures open { IfOk result IsOpen }
        ensures rising { IfOk result (λ session. AreRisingNames (map (λ table. table.0) (tables_of session))) }
        ensures counts { IsCounted (H.counts host.old) (H.counts host.new) result }
    {
        let store = Store::attach(alloc, host)?;
        let next = read_next(&store, host)?;
        let tables = read_tables(alloc, &store, host)?;
        check_files(alloc, &store, &tables)?;
        Ok(Session {
            alloc,
            store,
            tables,
            next,
        })
    }

    /// The allocator that the session was opened with.
    pub fn alloc(&self) -> Global {
        self.alloc
    }

    /// Whether no call that changes the directory has answered `Fault`.
    pub fn is_live(&self) -> bool
        ensures { result ≡ is_live self.now }
    {
        self.store.is_live()
    }

    /// The serial that the next new row takes, from 1 to 2^62.
    pub fn next_serial(&self) -> u64
        ensures { result ≡ self.now.next }
    {
        self.next
    }

    /// The definition of the table of this name. `None` exactly where there is no such table.
    pub fn table(&self, name: &Ident) -> Option<&TableDef>
        ensures { option_copied result ≡ def_of self.now name.now }
    {
        self.tables.get(&TableName { ident: *name })
    }

    /// The i-th table, counted from 0. `None` exactly where there are no more than i. At the opening tables stand by rising names; a
    /// table that comes later stands last, and one that goes closes up.
    pub fn table_at(&self, i: usize) -> Option<(&Ident, &TableDef)>
        ensures { option_map (λ table. (table.0.now, table.1.now)) result ≡ slice_get (tables_of self.now) i }
    {
        let (name, def) = self.tables.get_index(i)?;
        Some((&name.ident, def))
    }

    /// How many tables there are.
    pub(crate) fn table_count(&self) -> usize
        ensures { result ≡ length (tables_of self.now) }
    {
        self.tables.len()
    }

    /// Whether the store has a file of this name.
    pub(crate) fn has_file(&self, name: &Name) -> bool
        ensures { result ≡ is_some (length_of self.now.store name.now) }
    {
        self.store.length(name).is_some()
    }

    /// The rows of a spot of the table, by rising serial. `Bad`, of the spot's file, exactly where a record in it isn't proper, or else a
    /// row that is left doesn't fit the columns, isn't placed in the spot or has a serial that isn't below the next one: with the
    /// place of the first such record.
    pub fn rows<H: Host>(&self, host: &mut H, table: &Ident, spot: Spot) -> Result<Rows, Stop>
        requires open { IsOpen self.now }
        requires spot { IsSomeAnd (def_of self.now table.now) (λ def. IsSpotOf def spot) }
        requires stands { H.tells → HasMap self.now (H.world host.old) }
        // It touches no file, and the store stands for its map still.
        ensures told { H.tells → (map : FileList) → IsStore self.now.store map (H.world host.old) → IsLook self.now.store map (H.world host.old) (H.world host.new) }
        ensures rows { IfOk result (λ rows. H.tells → (map : FileList) → IsStore self.now.store map (H.world host.old) → (def : TableDef) → def_of self.now table.now ≡ Some def → HoldsRows (by_name map) (spot_file table.now def spot) rows) }
        // Over every host.
        ensures fit { IfOk result (λ rows. (def : TableDef) → def_of self.now table.now ≡ Some def → AreSpotRows self.now.next def spot rows) }
        ensures bad { IfBad result (λ name place. H.tells → (map : FileList) → IsStore self.now.store map (H.world host.old) → IsOver self.now (by_name map) → Bad (by_name map) name place) }
        ensures counts { IsCounted (H.counts host.old) (H.counts host.new) result }
    {
        let Some(def) = self.table(table) else {
            unreachable!()
        };
        let file = file_of(table, def, spot);
        let bytes = self.store.read(host, &file)?;
        fitting_rows(self.alloc, &file, bytes.as_slice(), self.next, def, spot)
    }

    /// Adds a table of this definition, which has no rows, behind the others. `NoMemory` leaves the directory's database and the
    /// session as they were. After `Fault` the session is no longer live.
    pub fn create_table<H: Host>(
        &mut self,
        host: &mut H,
        name: &Ident,
        def: &TableDef,
    ) -> Result<(), Stop>
        requires open { IsOpen self.old }
        requires change { IsCreate (def_of self.old) name.now def.now }
        requires stands { H.tells → HasMap self.old (H.world host.old) }
        // At every moment, whatever is answered, the directory stands for the old map or another one; of a database that the old map
        // held, the other holds the one with the table.
        ensures told { H.tells → (map : FileList) → IsStore self.old.store map (H.world host.old) → (next : FileList) × IsStep self.new.store map next (H.world host.old) (H.world host.new) result × (IsOver self.old (by_name map) → IsOverAfter self.new map next result) × ((db later : Db) → StandsIn self.old map db → IsCreateOf name.now def.now db later → Leaves self.new map next db later result) }
        ensures open { IsOpenAfter self.old self.new result }
        ensures last { OnOk result (tables_of self.new ≡ tables_of self.old ++ (name.now, def.now) ∷ []) }
        ensures bad { IfBad result (λ name place. IsWhole name place × (H.tells → ⊥)) }
        ensures counts { IsCounted (H.counts host.old) (H.counts host.new) result }
    {
        let coming = creating(self.alloc, self, name, def)?;
        self.store.reshape(host, &coming.fresh, &coming.chain)?;
        add_last(&mut self.tables, coming.tables);
        Ok(())
    }

    /// Takes the table of this name away, with all its rows; the others keep their order. `NoMemory` leaves the directory's database
    /// and the session as they were. After `Fault` the session is no longer live.
    pub fn drop_table<H: Host>(&mut self, host: &mut H, name: &Ident) -> Result<(), Stop>
        requires open { IsOpen self.old }
        requires change { IsSome (def_of self.old name.now) }
        requires stands { H.tells → HasMap self.old (H.world host.old) }
        // At every moment, whatever is answered, the directory stands for the old map or another one; of a database that the old map
        // held, the other holds the one without the table.
        ensures told { H.tells → (map : FileList) → IsStore self.old.store map (H.world host.old) → (next : FileList) × IsStep self.new.store map next (H.world host.old) (H.world host.new) result × (IsOver self.old (by_name map) → IsOverAfter self.new map next result) × ((db later : Db) → StandsIn self.old map db → IsDropOf name.now db later → Leaves self.new map next db later result) }
        ensures open { IsOpenAfter self.old self.new result }
        ensures rest { OnOk result (tables_of self.new ≡ remove_entry (bytes_eq name.now) (tables_of self.old)) }
        ensures bad { IfBad result (λ name place. IsWhole name place × (H.tells → ⊥)) }
        ensures counts { IsCounted (H.counts host.old) (H.counts host.new) result }
    {
        let chain = dropping(self.alloc, self, name)?;
        self.store.reshape(host, &List::new(self.alloc), &chain)?;
        take_out(&mut self.tables, TableName { ident: *name });
        Ok(())
    }

    /// Gives the table of this name another definition; it keeps its place. A spot in `fresh` has these rows, any other spot those that
    /// stood under its leaf name, and all other rows of the table go. `NoMemory` leaves the directory's database and the session as they
    /// were. After `Fault` the session is no longer live.
    pub fn alter_table<H: Host>(
        &mut self,
        host: &mut H,
        name: &Ident,
        def: &TableDef,
        fresh: &List<(Spot, Rows)>,
    ) -> Result<(), Stop>
        requires open { IsOpen self.old }
        requires change { IsAlter (def_of self.old) name.now def.now fresh.now }
        requires stands { H.tells → HasMap self.old (H.world host.old) }
        // At every moment, whatever is answered, the directory stands for the old map or another one; of a database that the old map
        // held, the other holds the one with the altered table.
        ensures told { H.tells → (map : FileList) → IsStore self.old.store map (H.world host.old) → (next : FileList) × IsStep self.new.store map next (H.world host.old) (H.world host.new) result × (IsOver self.old (by_name map) → IsOverAfter self.new map next result) × ((db later : Db) → StandsIn self.old map db → IsAlterOf name.now def.now fresh.now db later → Leaves self.new map next db later result) }
        ensures open { IsOpenAfter self.old self.new result }
        ensures after { OnOk result (HasAltered H.tells self.old self.new (H.world host.new) name.now def.now fresh.now) }
        ensures bad { IfBad result (λ name place. IsWhole name place × (H.tells → ⊥)) }
        ensures counts { IsCounted (H.counts host.old) (H.counts host.new) result }
    {
        let altering = altering(self.alloc, self, name, def, fresh)?;
        self.store.reshape(host, &altering.fresh, &altering.chain)?;
        put_again(&mut self.tables, TableName { ident: *name }, altering.def);
        Ok(())
    }

    /// Lets the rows of a table's spot and all rows of the other table, which is unpartitioned, change sides. `NoMemory` leaves the
    /// directory's database and the session as they were. After `Fault` the session is no longer live.
    pub fn exchange<H: Host>(
        &mut self,
        host: &mut H,
        name: &Ident,
        spot: Spot,
        other: &Ident,
    ) -> Result<(), Stop>
        requires open { IsOpen self.old }
        requires change { IsExchange (def_of self.old) name.now spot other.now }
        requires stands { H.tells → HasMap self.old (H.world host.old) }
        // At every moment, whatever is answered, the directory stands for the old map or another one; of a database that the old map
        // held, the other holds the one with the rows exchanged.
        ensures told { H.tells → (map : FileList) → IsStore self.old.store map (H.world host.old) → (next : FileList) × IsStep self.new.store map next (H.world host.old) (H.world host.new) result × (IsOver self.old (by_name map) → IsOverAfter self.new map next result) × ((db later : Db) → StandsIn self.old map db → IsExchangeOf name.now spot other.now db later → Leaves self.new map next db later result) }
        ensures open { IsOpenAfter self.old self.new result }
        ensures same { tables_of self.new ≡ tables_of self.old }
        ensures bad { IfBad result (λ name place. IsWhole name place × (H.tells → ⊥)) }
        ensures counts { IsCounted (H.counts host.old) (H.counts host.new) result }
    {
        let chain = exchanging(self.alloc, self, name, spot, other)?;
        self.store.reshape(host, &List::new(self.alloc), &chain)?;
        Ok(())
    }

    /// Takes rows of a table away, adds rows to it and sets the next serial. `NoMemory` leaves the directory's database and the
    /// session as they were. After `Fault` the session is no longer live.
    pub fn write_rows<H: Host>(&mut self, host: &mut H, change: &RowChange) -> Result<(), Stop>
        requires open { IsOpen self.old }
        requires change { IsSomeAnd (def_of self.old change.now.table) (λ def. IsRowChange def change.now) }
        requires stands { H.tells → HasMap self.old (H.world host.old) }
        // At every moment, whatever is answered, the directory stands for the old map or another one; of a database that the old map
        // held, the other holds the one that the change makes of it.
        ensures told { H.tells → (map : FileList) → IsStore self.old.store map (H.world host.old) → (next : FileList) × IsStep self.new.store map next (H.world host.old) (H.world host.new) result × (IsOver self.old (by_name map) → IsOverAfter self.new map next result) × ((db later : Db) → StandsIn self.old map db → IsChangeOf change.now db later → Leaves self.new map next db later result) }
        ensures open { IsOpenAfter self.old self.new result }
        ensures bad { IfBad result (λ name place. IsWhole name place × (H.tells → ⊥)) }
        ensures counts { IsCounted (H.counts host.old) (H.counts host.new) result }
    {
        let batch = batch_for(self.alloc, self, change)?;
        match self.store.append(host, &batch) {
            Ok(()) => {
                self.next = change.next;
                Ok(())
            }
            Err(stop) => Err(stop),
        }
    }
}

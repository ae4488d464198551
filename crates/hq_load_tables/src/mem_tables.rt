ghost use Rattle.std.specs.Prelude.{◌≡◌, ◌<◌, ◌≤◌, ◌||◌, ◌==◌, ℕ, [], true, false, Some, length, slice_index_or, IsOk, IfErr, OnOk, OnErr};
ghost use Rattle.hq_model.specs.Database.{is_database};
ghost use Rattle.hq_load_tables.specs.Pins.{contains};
ghost use Rattle.hq_load_tables.specs.Store.{TellsRise};

use crate::table_set::TableSet;
use crate::{Rows, RowsList, StoreRefusal, Tables};
use hq_model::{Catalog, TableId};
use std::alloc::Global;

/// Tables in memory. Their pins never fail.
#[derive(Drop)]
pub struct MemTables {
    catalog: Catalog,
    all: RowsList,
    pins: TableSet,
    ghost fits: { is_database catalog.tables all ≡ true },
    ghost within: { (t : ℕ) → contains pins t ≡ true → t < length all },
}

impl MemTables {
    /// A store of these rows, which has one entry for each table of the catalog. Nothing is pinned. Takes no memory.
    pub fn new(catalog: Catalog, all: RowsList) -> Self
        requires { is_database catalog.tables all ≡ true }
        ensures tables { ⟦<MemTables as Tables>⟧.tables result ≡ catalog.tables }
        ensures database { ⟦<MemTables as Tables>⟧.database result ≡ Some all }
        ensures released { (u : ℕ) → ⟦<MemTables as Tables>⟧.is_pinned result u ≡ false }
    {
        MemTables {
            catalog,
            all,
            pins: TableSet::new(),
        }
    }

    /// Pins a table of the catalog. Takes no memory.
    pub(crate) fn mark(&mut self, t: TableId)
        requires { t < length (⟦<MemTables as Tables>⟧.tables self.old) }
        ensures pinned { (u : ℕ) → ⟦<MemTables as Tables>⟧.is_pinned self.new u ≡ ((u == t) || ⟦<MemTables as Tables>⟧.is_pinned self.old u) }
        ensures rows { (u : ℕ) → ⟦<MemTables as Tables>⟧.rows self.new u ≡ ⟦<MemTables as Tables>⟧.rows self.old u }
        ensures tables { ⟦<MemTables as Tables>⟧.tables self.new ≡ ⟦<MemTables as Tables>⟧.tables self.old }
        ensures database { ⟦<MemTables as Tables>⟧.database self.new ≡ ⟦<MemTables as Tables>⟧.database self.old }
    {
        self.pins.insert(t.at());
    }
}

impl Tables for MemTables {
    ghost tables = { λ s. s.catalog.tables };

    ghost database = { λ s. Some s.all };

    ghost is_pinned = { λ s t. contains s.pins t };

    ghost rows = { λ s t. slice_index_or s.all t [] };

    ghost faults = { λ _. 0 };

    fn catalog(&self) -> &Catalog {
        &self.catalog
    }

    fn pin(&mut self, _alloc: Global, t: TableId) -> Result<(), StoreRefusal>
        requires { t < length (⟦<MemTables as Tables>⟧.tables self.old) }
        ensures taken { IsOk result }

        // What the trait says.
        ensures pinned { OnOk result ((u : ℕ) → ⟦<MemTables as Tables>⟧.is_pinned self.new u ≡ ((u == t) || ⟦<MemTables as Tables>⟧.is_pinned self.old u)) }
        ensures refused { OnErr result ((u : ℕ) → ⟦<MemTables as Tables>⟧.is_pinned self.new u ≡ ⟦<MemTables as Tables>⟧.is_pinned self.old u) }
        ensures cause { IfErr result (λ e. TellsRise (⟦<MemTables as Tables>⟧.faults self.old) (⟦<MemTables as Tables>⟧.faults self.new) e) }
        ensures later { ⟦<MemTables as Tables>⟧.faults self.old ≤ ⟦<MemTables as Tables>⟧.faults self.new }
        ensures rows { (u : ℕ) → ⟦<MemTables as Tables>⟧.is_pinned self.old u ≡ true → ⟦<MemTables as Tables>⟧.rows self.new u ≡ ⟦<MemTables as Tables>⟧.rows self.old u }
        ensures tables { ⟦<MemTables as Tables>⟧.tables self.new ≡ ⟦<MemTables as Tables>⟧.tables self.old }
        ensures database { ⟦<MemTables as Tables>⟧.database self.new ≡ ⟦<MemTables as Tables>⟧.database self.old }
    {
        self.mark(t);
        Ok(())
    }

    fn pinned(&self, t: TableId) -> &Rows {
        &self.all.as_slice()[t.at()]
    }

    fn release(&mut self) {
        self.pins = TableSet::new();
    }

    fn faults(&self) -> u64 {
        0
    }

    ghost use Rattle.hq_load_tables.specs.Databases.{rows_at-database};
    ghost use Rattle.std.specs.Prelude.{refl};

    ghost catalog_fits = { λ s. s.catalog.valid };

    ghost database_fits = { λ s. s.fits };

    ghost pinned_fits = { λ s t _. rows_at-database s.catalog.tables s.all t s.fits };

    ghost pinned_told = { λ s t _. refl };
}

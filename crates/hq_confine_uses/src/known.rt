//! What the rules are asked over: the tables with their relationships, and what a session is granted of each.
ghost use Rattle.std.specs.Prelude.{◌≡◌};

use hq_model::{Bexp, ColId, Column, Described, Mask, PermView, Rel, TableId, has_column};

/// The tables with their relationships, and for each table by its place what the session is granted of it.
#[derive(Clone, Copy)]
pub struct Rules<'a> {
    pub scope: Described<'a>,
    pub grants: &'a [Option<PermView>],
}

impl<'a> Rules<'a> {
    ghost use Rattle.std.specs.Prelude.{◌≡◌, None, MatchOption, map, option_map, slice_index_or, true, false};
    ghost use Rattle.hq_model.specs.Bexp.{bexp_view};
    ghost use Rattle.hq_model.specs.Grants.{grant};
    ghost use Rattle.hq_model.specs.PermView.{mask_view, permission_view};
    ghost use Rattle.hq_model.specs.Permitted.{mask_of};
    ghost use Rattle.hq_model.specs.Meta.{meta_view};
    ghost use Rattle.hq_model.specs.Schema.{rels_of, table};
    ghost use Rattle.hq_confine_rules.specs.Members.{has_mask, is_permitted};
    ghost use Rattle.hq_confine_rules.specs.Uses.{is_key};
    ghost use Rattle.hq_confine_uses.specs.Views.{rules_schema, rules_grants};

    /// The columns of a table; none beyond the catalog.
    pub fn columns(&self, t: usize) -> &'a [Column]
        ensures { result.now ≡ (table (rules_schema self.now) t).columns }
    {
        match self.scope.catalog.table(TableId::new(t)) {
            Some(table) => table.columns.as_slice(),
            None => &[],
        }
    }

    /// The columns of a table's primary key; none beyond the catalog.
    pub fn key(&self, t: usize) -> &'a [ColId]
        ensures { result.now ≡ (table (rules_schema self.now) t).key }
    {
        match self.scope.catalog.table(TableId::new(t)) {
            Some(table) => table.key.as_slice(),
            None => &[],
        }
    }

    /// The relationships of a table; none where it is not tracked.
    pub fn rels(&self, t: usize) -> &'a [Rel]
        ensures { result.now ≡ (table (rules_schema self.now) t).rels }
    {
        match self.scope.catalog.table(TableId::new(t)) {
            Some(_) => self.tracked_rels(t),
            None => &[],
        }
    }

    // The relationships of a table's entry in the metadata.
    fn tracked_rels(&self, t: usize) -> &'a [Rel]
        ensures { result.now ≡ rels_of (meta_view self.now.scope.meta.now) t }
    {
        match self.scope.meta.tracked_table(TableId::new(t)) {
            Some(tracked) => tracked.rels.as_slice(),
            None => &[],
        }
    }

    /// What the session is granted of a table, where something is.
    pub fn grant(&self, t: usize) -> Option<&'a PermView>
        ensures { option_map (λ p. permission_view p.now) result ≡ slice_index_or (rules_grants self.now) t None }
    {
        match self.grants.get(t) {
            Some(granted) => granted.as_ref(),
            None => None,
        }
    }

    // The columns that the session may see of a table.
    fn permitted(&self, t: usize) -> &'a [ColId]
        ensures { result.now ≡ (grant (rules_grants self.now) t).columns }
    {
        match self.grant(t) {
            Some(granted) => granted.cols.as_slice(),
            None => &[],
        }
    }

    // The masks of a table's columns.
    fn masks(&self, t: usize) -> &'a [Mask]
        ensures { map mask_view result.now ≡ (grant (rules_grants self.now) t).masks }
    {
        match self.grant(t) {
            Some(granted) => granted.masks.as_slice(),
            None => &[],
        }
    }

    /// Whether the session may see a column.
    pub fn is_permitted(&self, t: usize, c: usize) -> bool
        ensures { result ≡ is_permitted (grant (rules_grants self.now) t) c }
    {
        has_column(self.permitted(t), ColId::new(c))
    }

    /// The mask of a column: the expression that is to be true at a row for its cell to show.
    pub fn mask(&self, t: usize, c: usize) -> Option<&'a Bexp>
        ensures { let p = grant (rules_grants self.now) t in
            MatchOption result (has_mask p c ≡ false) (λ shown. (has_mask p c ≡ true) × (bexp_view shown.now ≡ mask_of p.masks c)) }
    {
        for mask in self.masks(t) {
            if mask.col.at() == c {
                return Some(&mask.shown);
            }
        }
        None
    }

    /// Whether a column is one of a table's primary key.
    pub fn is_key(&self, t: usize, c: usize) -> bool
        ensures { result ≡ is_key (rules_schema self.now) t c }
    {
        has_column(self.key(t), ColId::new(c))
    }
}

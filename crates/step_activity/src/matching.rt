//! The pending request that a `serve` or a `pending` asks for.

ghost use Rattle.std.specs.Prelude.{◌≡◌, IfOk, List, is_some, map};
ghost use Rattle.std.specs.Option.{option_map};
ghost use Rattle.asp_model.specs.Configuration as model;
ghost use Rattle.asp_model.specs.Configuration.{RequestShape};
ghost use Rattle.asp_model.specs.Intent.{labels_served, method_labels, oldest_match};
ghost use Rattle.asp_model.specs.Store.{cell as cell_in};
ghost use Rattle.law_steps.specs.Waking.{labels_wanted};
ghost use Rattle.code_table.specs.Cells.{coded};
ghost use Rattle.code_table.specs.Shapes.{cell_shape};
ghost use Rattle.code_table.specs.Classes.{seen_class};
ghost use Rattle.serve_rules.specs.Labels.{label_text};
ghost use Rattle.serve_rules.specs.Wanted.{wanted_labels};
ghost use Rattle.step_activity.specs.Actors.{IsClosedFor, Stands};
ghost use Rattle.step_activity.specs.Asking.{asked_for, class_in};
ghost use Rattle.step_activity.specs.Found.{IsFound};

use crate::actor::Actor;
use activity_step::Standing;
use asp_model::Label;
use code_table::{Class, Code, View};
use serve_rules::Wanted;
use std::alloc::{AllocError, Global};
use step_rows::Redex;

impl Actor {
    /// The number of the oldest pending request that a `serve` or a `pending` with these labels asks
    /// for. It takes no memory.
    pub fn match_of(&self, _alloc: Global, labels: &[Label]) -> Result<Option<u64>, AllocError>
        requires closed { IsClosedFor self.now }
        ensures oldest { (a : model.Activity) (rs : List RequestShape) → Stands self.now a rs →
            let wanted = labels_served (map label_text labels.now) (cell_in a.store a.active) in
            IfOk result (λ n. n ≡ option_map (λ x. x.0) (oldest_match wanted a.served 0 rs)) }
    {
        if self.queue.len() == 0 {
            return Ok(None);
        }
        Ok(self.queue.first_of(self.served_by(labels)))
    }

    /// The number as `match_of` tells it, where it is not known.
    pub(crate) fn match_known(
        &self,
        alloc: Global,
        labels: &[Label],
        found: Option<u64>,
    ) -> Result<Option<u64>, AllocError>
        requires closed { IsClosedFor self.now }
        ensures oldest { (a : model.Activity) (rs : List RequestShape) → Stands self.now a rs →
            let wanted = labels_served (map label_text labels.now) (cell_in a.store a.active) in
            IsFound wanted a rs found →
            IfOk result (λ n. n ≡ option_map (λ x. x.0) (oldest_match wanted a.served 0 rs)) }
    {
        match found {
            Some(number) => Ok(Some(number)),
            None => self.match_of(alloc, labels),
        }
    }

    /// Whether a pending request has one of these labels. It takes no memory.
    pub(crate) fn has_match(&self, alloc: Global, labels: &[Label]) -> Result<bool, AllocError>
        requires closed { IsClosedFor self.now }
        ensures found { (a : model.Activity) (rs : List RequestShape) → Stands self.now a rs →
            let wanted = labels_served (map label_text labels.now) (cell_in a.store a.active) in
            IfOk result (λ b. b ≡ is_some (oldest_match wanted a.served 0 rs)) }
    {
        match self.match_of(alloc, labels)? {
            Some(_number) => Ok(true),
            None => Ok(false),
        }
    }

    /// The labels that the activity asks for where it stands, once it has settled: those of a
    /// `serve`, and none elsewhere.
    pub fn wanted(&self) -> Result<Wanted<'_>, AllocError>
        requires closed { IsClosedFor self.now }
        ensures labels { (a : model.Activity) (rs : List RequestShape) → Stands self.now a rs →
            IfOk result (λ w. wanted_labels w ≡ labels_wanted a) }
    {
        match self.activity.standing()? {
            Standing::Place(_place) => Ok(Wanted::Labels(&[])),
            Standing::Redex(redex) => Ok(self.asked_by(redex)),
        }
    }

    /// The labels that a redex asks for.
    fn asked_by<'a>(&'a self, redex: Redex<'a>) -> Wanted<'a>
        requires closed { IsClosedFor self.now }
        ensures labels { (a : model.Activity) (rs : List RequestShape) → Stands self.now a rs →
            wanted_labels result ≡ asked_for redex.entry (cell_in a.store a.active) }
    {
        match redex {
            Redex::Serve(labels) => self.served_by(labels),
            _ => Wanted::Labels(&[]),
        }
    }

    /// The labels that a `serve` with these labels asks for.
    fn served_by<'a>(&'a self, labels: &'a [Label]) -> Wanted<'a>
        requires closed { IsClosedFor self.now }
        ensures labels { (a : model.Activity) (rs : List RequestShape) → Stands self.now a rs →
            let active = cell_in a.store a.active in
            wanted_labels result ≡ labels_served (map label_text labels.now) active }
    {
        let active = self.activity.store().cell(self.activity.active());
        labels_of(self.activity.code(), active, labels)
    }
}

/// The labels that a `serve` asks for: with none written, those of the active object's methods.
fn labels_of<'a>(code: &'a Code, active: View, labels: &'a [Label]) -> Wanted<'a>
    ensures labels { let active = cell_shape code.now active.entry in
        wanted_labels result ≡ labels_served (map label_text labels.now) active }
{
    if labels.is_empty() {
        methods_of(code, active)
    } else {
        Wanted::Labels(labels)
    }
}

/// The labels of an object's methods.
fn methods_of<'a>(code: &'a Code, active: View) -> Wanted<'a>
    ensures labels { let active = cell_shape code.now active.entry in
        wanted_labels result ≡ method_labels active }
{
    match class_of(code, active) {
        Some(class) => Wanted::Methods(class),
        None => Wanted::Labels(&[]),
    }
}

/// The class of an object.
fn class_of<'a>(code: &'a Code, cell: View) -> Option<&'a Class>
    ensures class { seen_class result ≡ class_in code.now (coded cell.entry) }
{
    match cell {
        View::Object(object) => code.class(object.class),
        _ => None,
    }
}

//! Numbers, labels and dates (CSL 1.0.2, Number; Label; Date). They hold no other nodes, and
//! `csl_nodes` renders them.
//! Definitions: specs/Expanded.antt.

ghost use Rattle.std.specs.Prelude.{IfSome};
ghost use Rattle.csl_elements.specs.declared.taxonomy.Variable.TheVariants as variable;
ghost use Rattle.csl_elements.specs.Names.{view_label};
ghost use Rattle.csl_elements.specs.Node.{date, label, number};
ghost use Rattle.csl_elements.specs.View.{view_date, view_number};
ghost use Rattle.csl_elements.specs.VariableSet.{Has};
ghost use Rattle.csl_style.specs.Expanded.{expanded};

use crate::dry_run::DryRun;
use crate::node::Node;
use crate::plan::{NodeInfo, NodePlan};
use crate::query::Query;
use csl_context::{Context, RenderError};
use csl_entry::EntryLike;
use csl_nodes::{
    date_info, date_shows, label_info, number_info, number_shows, render_date, render_label,
    render_number,
};
use csl_style::{Date, Label, Number, Variable, VariableSet};
use lit_model::Memory;

impl Node for Number {
    ghost expansion = { λ style n. expanded style (number (view_number n)) };

    fn node_info<'c, 's, T: EntryLike>(
        &'s self,
        run: &mut DryRun<'c, 's, T>,
    ) -> Result<NodeInfo, Memory> {
        let answer = number_info(run.context(), self)?;
        let read = VariableSet::new().with(Variable::from(self.variable));
        Ok(NodeInfo::new(answer, read))
    }

    fn node_shows<'c, 's, T: EntryLike>(
        &'s self,
        query: &mut Query<'c, 's, T>,
    ) -> Result<bool, Memory> {
        Ok(number_shows(query.context(), self, query.variable()))
    }

    fn render_with_plan<'p, 's, T: EntryLike>(
        &'s self,
        ctx: &mut Context<'s, T>,
        _plan: Option<&NodePlan<'p>>,
    ) -> Result<(), RenderError> {
        render_number(ctx, self)
    }
}

impl Node for Label {
    ghost expansion = { λ style l. expanded style (label l.variable (view_label l.label)) };

    fn node_info<'c, 's, T: EntryLike>(
        &'s self,
        run: &mut DryRun<'c, 's, T>,
    ) -> Result<NodeInfo, Memory> {
        let answer = label_info(run.context(), self)?;
        let read = VariableSet::new().with(Variable::from(self.variable));
        Ok(NodeInfo::new(answer, read))
    }

    fn node_shows<'c, 's, T: EntryLike>(
        &'s self,
        _query: &mut Query<'c, 's, T>,
    ) -> Result<bool, Memory> {
        Ok(false)
    }

    fn render_with_plan<'p, 's, T: EntryLike>(
        &'s self,
        ctx: &mut Context<'s, T>,
        _plan: Option<&NodePlan<'p>>,
    ) -> Result<(), RenderError> {
        render_label(ctx, self)
    }
}

/// The variable of a date, if it has one.
#[tactic(auto, using(crate::proofs::VariableSets::has_more))]
fn variable_of_date(date: &Date) -> VariableSet
    ensures { IfSome date.now.variable (λ v. Has result (variable.Date v)) }
{
    match date.variable {
        Some(variable) => VariableSet::new().with(Variable::Date(variable)),
        None => VariableSet::new(),
    }
}

impl Node for Date {
    ghost expansion = { λ style d. expanded style (date (view_date d)) };

    fn node_info<'c, 's, T: EntryLike>(
        &'s self,
        run: &mut DryRun<'c, 's, T>,
    ) -> Result<NodeInfo, Memory> {
        let answer = date_info(run.context(), self)?;
        Ok(NodeInfo::new(answer, variable_of_date(self)))
    }

    fn node_shows<'c, 's, T: EntryLike>(
        &'s self,
        query: &mut Query<'c, 's, T>,
    ) -> Result<bool, Memory> {
        Ok(date_shows(query.context(), self, query.variable()))
    }

    fn render_with_plan<'p, 's, T: EntryLike>(
        &'s self,
        ctx: &mut Context<'s, T>,
        _plan: Option<&NodePlan<'p>>,
    ) -> Result<(), RenderError> {
        render_date(ctx, self)
    }
}

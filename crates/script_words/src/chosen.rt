// A command on a range of traces as one on the traces of it that are chosen.
ghost use Rattle.std.specs.Prelude.{◌≡◌};
ghost use Rattle.std.specs.Option.{option_map_or};
ghost use Rattle.bench_rules.specs.declared.chosen_edit.ChosenEdit.TheVariants.{Renumber as renumber, Compute as compute};
ghost use Rattle.bench_rules.specs.declared.edit.Edit.TheVariants.{OfChosen as edit_of_chosen};
ghost use Rattle.bench_rules.specs.declared.query.Query.TheVariants.{OfChosen as query_of_chosen};
ghost use Rattle.script_words.specs.Ranges.{chosen_of, edit_parts, query_parts, under as under_conditions};

use crate::command::Command;
use bench_rules::{
    Chosen, ChosenEdit, ChosenQuery, Condition, Edit, Field, Items, Operand, Operator, Query,
};

/// The command on the traces of its range that meet the conditions; on none in a file without
/// traces.
pub(crate) fn under(none: bool, conditions: Items<Condition>, command: Command) -> Command
    ensures { result ≡ under_conditions none conditions command }
{
    match command {
        Command::Apply(edit) => Command::Apply(edit_under(none, conditions, edit)),
        Command::Ask(query) => Command::Ask(query_under(none, conditions, query)),
    }
}

// The traces of the range that meet the conditions, or none.
fn chosen(none: bool, conditions: Items<Condition>, traces: Option<(u32, u32)>) -> Chosen
    ensures { result ≡ chosen_of none conditions traces }
{
    Chosen {
        traces: if none { None } else { traces },
        conditions,
    }
}

fn edit_under(none: bool, conditions: Items<Condition>, edit: Edit) -> Edit
    ensures { result ≡ option_map_or
        (λ p. edit_of_chosen (chosen_of none conditions p.0) p.1) (edit_parts edit) edit }
{
    match edit {
        Edit::Renumber {
            first_trace,
            last_trace,
            field,
            first_value,
            step,
        } => {
            let chosen = chosen(none, conditions, Some((first_trace, last_trace)));
            Edit::OfChosen(chosen, counted(field, first_value, step))
        }
        Edit::Compute {
            first_trace,
            last_trace,
            field,
            source,
            steps,
        } => {
            let chosen = chosen(none, conditions, Some((first_trace, last_trace)));
            Edit::OfChosen(chosen, computed(field, source, steps))
        }
        Edit::Sort {
            first_trace,
            last_trace,
            fields,
            ..
        } => {
            let chosen = chosen(none, conditions, Some((first_trace, last_trace)));
            Edit::OfChosen(chosen, ChosenEdit::Nothing(fields))
        }
        Edit::OfChosen(of, edit) => Edit::OfChosen(chosen(none, conditions, of.traces), edit),
        other => other,
    }
}

fn counted(field: Field, first_value: i128, step: i128) -> ChosenEdit
    ensures { result ≡ renumber field first_value step }
{
    ChosenEdit::Renumber {
        field,
        first_value,
        step,
    }
}

fn computed(field: Field, source: Operand, steps: Items<(Operator, Operand)>) -> ChosenEdit
    ensures { result ≡ compute field source steps }
{
    ChosenEdit::Compute {
        field,
        source,
        steps,
    }
}

fn query_under(none: bool, conditions: Items<Condition>, query: Query) -> Query
    ensures { result ≡ option_map_or
        (λ p. query_of_chosen (chosen_of none conditions p.0) p.1) (query_parts query) query }
{
    match query {
        Query::Table(a, b, fields) => {
            let chosen = chosen(none, conditions, Some((a, b)));
            Query::OfChosen(chosen, ChosenQuery::Table(fields))
        }
        Query::Find(a, b, field, low, high) => {
            let chosen = chosen(none, conditions, Some((a, b)));
            Query::OfChosen(chosen, ChosenQuery::Find(field, low, high))
        }
        Query::Extremes(a, b) => {
            let chosen = chosen(none, conditions, Some((a, b)));
            Query::OfChosen(chosen, ChosenQuery::Extremes)
        }
        Query::OfChosen(of, query) => {
            Query::OfChosen(chosen(none, conditions, of.traces), query)
        }
        other => other,
    }
}

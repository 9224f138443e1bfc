//! Arguments of calls: clap's command is made from the rows of a table, and the values that clap
//! matched are read by these rows.
ghost use Rattle.std.specs.Prelude.{◌≡◌, IfNone, IfOk, IfSome, false, fold, map, option_map};
ghost use Rattle.clap.specs.Words.{app_of, first_of, found_of, rows_of, rule_of, shape_of, with_rule, with_subcommand};
ghost use Rattle.clap.specs.declared.builder.command.Command.TheViews.{out-Command as fields_of};
ghost use Rattle.dpbr_cli.specs.Explaining.{text_now};
ghost use Rattle.dpbr_cli.specs.Table.{lists_now, rows_now, rule_of_argument, rules_of, rules_of_list, shape_of_row, shapes_of, with_kind, with_place, with_rules, with_value};
ghost use Rattle.dpbr_cli.specs.Values.{IsFlag, IsNumberIf, IsNumberOf, is_set};
ghost use Rattle.dpbr_cli.specs.shared.Matches.{HasNumber, HasNumberOf, IsNumberIn, MayHaveNumber};

use crate::call_table::{Argument, Kind, Place, Subcommand};
use clap::builder::ValueParser;
use clap::{Arg, ArgAction, ArgMatches, Command};
use std::alloc::{AllocError, Global};

/// The command with these subcommands after its own.
pub fn with_subcommands<'a>(
    alloc: Global,
    mut command: Command<'a>,
    subcommands: &'a [Subcommand<'a>],
) -> Result<Command<'a>, AllocError>
    ensures { IfOk result (λ more. app_of more ≡ fold with_subcommand (app_of command.entry)
        (shapes_of text_now rows_now lists_now subcommands.now)) }
{
    for row in subcommands {
        let added = subcommand(alloc, row)?;
        command = command.subcommand(added)?;
    }
    Ok(command)
}

/// clap's command for a row.
fn subcommand<'a>(alloc: Global, row: &Subcommand<'a>) -> Result<Command<'a>, AllocError>
    ensures shape { IfOk result (λ command. shape_of command
        ≡ shape_of_row text_now rows_now lists_now row.now) }
    ensures local { IfOk result (λ command. (fields_of command).has_globals ≡ false) }
{
    let (name, about, lists) = *row;
    with_lists(alloc, Command::new(alloc, name).about(about), lists)
}

/// The command with the arguments of these lists after its own.
fn with_lists<'a>(
    alloc: Global,
    mut command: Command<'a>,
    lists: &'a [&'a [Argument<'a>]],
) -> Result<Command<'a>, AllocError>
    requires local { (fields_of command).has_globals ≡ false }
    ensures app { IfOk result (λ more. app_of more ≡ fold with_rules (app_of command.entry)
        (map (rules_of_list text_now rows_now) lists.now)) }
    ensures local { IfOk result (λ more. (fields_of more).has_globals ≡ false) }
{
    for list in lists {
        command = with_arguments(alloc, command, list)?;
    }
    Ok(command)
}

/// The command with these arguments after its own.
fn with_arguments<'a>(
    alloc: Global,
    mut command: Command<'a>,
    arguments: &'a [Argument<'a>],
) -> Result<Command<'a>, AllocError>
    requires local { (fields_of command).has_globals ≡ false }
    ensures app { IfOk result (λ more. app_of more
        ≡ with_rules (app_of command.entry) (rules_of text_now arguments.now)) }
    ensures local { IfOk result (λ more. (fields_of more).has_globals ≡ false) }
{
    for row in arguments {
        let added = argument(alloc, row);
        command = command.arg(added)?;
    }
    Ok(command)
}

/// clap's argument for a row.
fn argument<'a>(alloc: Global, row: &Argument<'a>) -> Arg<'a>
    ensures rule { rule_of result ≡ rule_of_argument text_now row.now }
    ensures local { result.global ≡ false }
{
    let (name, place, kind, value, help) = *row;
    let taking = of_kind(Arg::new(alloc, name).help(help), kind);
    let placed = at_place(taking, name, place);
    naming(placed, value)
}

/// The argument, which takes what this kind does.
fn of_kind<'a>(arg: Arg<'a>, kind: Kind) -> Arg<'a>
    ensures rule { rule_of result ≡ with_kind kind (rule_of arg.entry) }
    ensures local { result.global ≡ arg.entry.global }
{
    match kind {
        Kind::Word => arg,
        Kind::Number(least, most) => {
            arg.value_parser(ValueParser::Signed(i64::from(least), i64::from(most)))
        }
        Kind::Flag => arg.action(ArgAction::SetTrue),
    }
}

/// The argument of this name, given at this place.
fn at_place<'a>(arg: Arg<'a>, name: &'a str, place: Place) -> Arg<'a>
    ensures rule { rule_of result ≡ with_place place name.entry.now (rule_of arg.entry) }
    ensures local { result.global ≡ arg.entry.global }
{
    match place {
        Place::Positional => arg.required(true),
        Place::Optional => arg.long(name),
        Place::Needed => arg.long(name).required(true),
    }
}

/// The argument, whose value has this name if there is one.
fn naming<'a>(arg: Arg<'a>, value: Option<&'a str>) -> Arg<'a>
    ensures rule { rule_of result ≡ with_value value.entry (rule_of arg.entry) }
    ensures local { result.global ≡ arg.entry.global }
{
    match value {
        Some(name) => arg.value_name(name),
        None => arg,
    }
}

/// The number that was matched for an argument whose row takes one.
pub fn number_of(found: &ArgMatches<'_>, argument: &Argument<'_>) -> Option<u32>
    ensures some { IfSome result
        (IsNumberOf (rows_of (found_of found.now)) argument.now.0.now argument.now.2) }
    ensures none { IfNone result
        (¬ HasNumberOf (rows_of (found_of found.now)) argument.now.0.now argument.now.2) }
{
    let (name, _, kind, ..) = *argument;
    match kind {
        Kind::Number(least, most) => number_between(found, name, least, most),
        Kind::Word | Kind::Flag => None,
    }
}

/// As `number_of`, or the inner None if nothing was matched.
pub fn number_if(found: &ArgMatches<'_>, argument: &Argument<'_>) -> Option<Option<u32>>
    ensures some { IfSome result
        (IsNumberIf (rows_of (found_of found.now)) argument.now.0.now argument.now.2) }
    ensures none { IfNone result
        (¬ MayHaveNumber (rows_of (found_of found.now)) argument.now.0.now argument.now.2) }
{
    match text_of(found, argument.0) {
        Some(_) => Some(Some(number_of(found, argument)?)),
        None => Some(None),
    }
}

/// The number in this range that was matched for an argument.
fn number_between(found: &ArgMatches<'_>, id: &str, least: u32, most: u32) -> Option<u32>
    ensures some { IfSome result (IsNumberIn (rows_of (found_of found.now)) id.now least most) }
    ensures none { IfNone result
        (¬ HasNumber (rows_of (found_of found.now)) id.now least most) }
{
    let number: u32 = found.get_one(id)?;
    if least <= number && number <= most {
        Some(number)
    } else {
        None
    }
}

/// The word that was matched for an argument.
pub fn text_of<'a>(found: &ArgMatches<'a>, id: &str) -> Option<&'a str>
    ensures { option_map (λ s. s.now) result ≡ first_of id.now (rows_of (found_of found.now)) }
{
    found.get_str(id)
}

/// Whether the flag of this name was given.
pub fn is_set(found: &ArgMatches<'_>, id: &str) -> bool
    ensures value { result ≡ is_set (rows_of (found_of found.now)) id.now }
    ensures flag { IsFlag (rows_of (found_of found.now)) id.now result }
{
    match text_of(found, id) {
        Some(text) => text == "true",
        None => false,
    }
}

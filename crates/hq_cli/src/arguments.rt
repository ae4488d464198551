ghost use Rattle.std.specs.Prelude.{◌≡◌, IfOk, false};
ghost use Rattle.clap.specs.Words.{app_of, rule_of};
ghost use Rattle.hq_cli.specs.Grammar.{authors_rule, bare_app, check_app, connections_rule, copy_app, dir_rule, gen_app, headers_rule, paged_rule, part_rule, port_rule, live_app, query_app, request_app, secret_rule, serve_app, unauthorized_rule};

use clap::{Arg, ArgAction, Command, value_parser};
use std::alloc::{AllocError, Global};

// DIR
fn dir_arg<'a>(alloc: Global) -> Arg<'a>
    ensures rule { rule_of result ≡ dir_rule }
    ensures local { result.global ≡ false }
{
    Arg::new(alloc, "dir").required(true)
}

// PART
fn part_arg<'a>(alloc: Global) -> Arg<'a>
    ensures rule { rule_of result ≡ part_rule }
    ensures local { result.global ≡ false }
{
    Arg::new(alloc, "part").required(true)
}

// [HEADER]...
fn headers_arg<'a>(alloc: Global) -> Arg<'a>
    ensures rule { rule_of result ≡ headers_rule }
    ensures local { result.global ≡ false }
{
    Arg::new(alloc, "headers")
        .num_args(0..)
        .action(ArgAction::Append)
}

// --port P
fn port_arg<'a>(alloc: Global) -> Arg<'a>
    ensures rule { rule_of result ≡ port_rule }
    ensures local { result.global ≡ false }
{
    Arg::new(alloc, "port")
        .long("port")
        .required(true)
        .value_parser(value_parser!(u16).range(1..))
}

// --connections N
fn connections_arg<'a>(alloc: Global) -> Arg<'a>
    ensures rule { rule_of result ≡ connections_rule }
    ensures local { result.global ≡ false }
{
    Arg::new(alloc, "connections")
        .long("connections")
        .required(true)
        .value_parser(value_parser!(u32).range(1..1_000_001))
}

// [--admin-secret S]
fn secret_arg<'a>(alloc: Global) -> Arg<'a>
    ensures rule { rule_of result ≡ secret_rule }
    ensures local { result.global ≡ false }
{
    Arg::new(alloc, "admin-secret").long("admin-secret")
}

// [--unauthorized-role R]
fn unauthorized_arg<'a>(alloc: Global) -> Arg<'a>
    ensures rule { rule_of result ≡ unauthorized_rule }
    ensures local { result.global ≡ false }
{
    Arg::new(alloc, "unauthorized-role").long("unauthorized-role")
}

// [--paged]
fn paged_arg<'a>(alloc: Global) -> Arg<'a>
    ensures rule { rule_of result ≡ paged_rule }
    ensures local { result.global ≡ false }
{
    Arg::new(alloc, "paged")
        .long("paged")
        .action(ArgAction::SetTrue)
}

// N
fn authors_arg<'a>(alloc: Global) -> Arg<'a>
    ensures rule { rule_of result ≡ authors_rule }
    ensures local { result.global ≡ false }
{
    Arg::new(alloc, "authors")
        .required(true)
        .value_parser(value_parser!(u32))
}

// A command without arguments.
fn bare_command<'a>(alloc: Global, name: &'a str) -> Command<'a>
    ensures { app_of result ≡ bare_app name.entry.now }
{
    Command::new(alloc, name)
        .no_binary_name(true)
        .disable_help_flag(true)
        .disable_version_flag(true)
}

/// DIR [HEADER]...
pub fn request_command<'a>(alloc: Global) -> Result<Command<'a>, AllocError>
    ensures { IfOk result (λ c. app_of c ≡ request_app) }
{
    bare_command(alloc, "request")
        .arg(dir_arg(alloc))?
        .arg(headers_arg(alloc))
}

/// DIR [HEADER]... [--paged]
pub fn query_command<'a>(alloc: Global) -> Result<Command<'a>, AllocError>
    ensures { IfOk result (λ c. app_of c ≡ query_app) }
{
    request_command(alloc)?.arg(paged_arg(alloc))
}

/// DIR PART [HEADER]...
pub fn copy_command<'a>(alloc: Global) -> Result<Command<'a>, AllocError>
    ensures { IfOk result (λ c. app_of c ≡ copy_app) }
{
    bare_command(alloc, "copy")
        .arg(dir_arg(alloc))?
        .arg(part_arg(alloc))?
        .arg(headers_arg(alloc))
}

/// DIR
pub fn check_command<'a>(alloc: Global) -> Result<Command<'a>, AllocError>
    ensures { IfOk result (λ c. app_of c ≡ check_app) }
{
    bare_command(alloc, "check").arg(dir_arg(alloc))
}

/// DIR --port P --connections N [--admin-secret S] [--unauthorized-role R] [--paged]
pub fn serve_command<'a>(alloc: Global) -> Result<Command<'a>, AllocError>
    ensures { IfOk result (λ c. app_of c ≡ serve_app) }
{
    bare_command(alloc, "serve")
        .arg(dir_arg(alloc))?
        .arg(port_arg(alloc))?
        .arg(connections_arg(alloc))?
        .arg(secret_arg(alloc))?
        .arg(unauthorized_arg(alloc))?
        .arg(paged_arg(alloc))
}

/// DIR --port P --connections N [--admin-secret S] [--unauthorized-role R]
pub fn live_command<'a>(alloc: Global) -> Result<Command<'a>, AllocError>
    ensures { IfOk result (λ c. app_of c ≡ live_app) }
{
    bare_command(alloc, "live")
        .arg(dir_arg(alloc))?
        .arg(port_arg(alloc))?
        .arg(connections_arg(alloc))?
        .arg(secret_arg(alloc))?
        .arg(unauthorized_arg(alloc))
}

/// N
pub fn gen_command<'a>(alloc: Global) -> Result<Command<'a>, AllocError>
    ensures { IfOk result (λ c. app_of c ≡ gen_app) }
{
    bare_command(alloc, "gen").arg(authors_arg(alloc))
}

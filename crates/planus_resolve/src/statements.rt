//! The root, the identifier and the extension.

ghost use Rattle.std.specs.Prelude.{◌≡◌, [], ◌≤◌, map, length, IfOk, OnOk, Some, None};
ghost use Rattle.planus_syntax.specs.Values.{item_of, declarations_of};
ghost use Rattle.planus_resolve.specs.inner.Read.{AreStated};
ghost use Rattle.planus_resolve.specs.inner.Scopes.{scope_heads, scope_space};
ghost use Rattle.planus_resolve.specs.Names.{head_of, begun_in};
ghost use Rattle.planus_resolve.specs.Schemas.{said_of, after, after_file, after_files, IsFour};
ghost use Rattle.planus_resolve.specs.Schemas.{no_statements};
ghost use Rattle.planus_resolve.specs.Wrong.{Tells};
ghost use Rattle.planus_resolve.specs.WrongServices as spec;
ghost use Rattle.planus_resolve.specs.Faults.{Adds, wrong_said, statement_faults};
ghost use Rattle.planus_resolve.specs.Faults.{file_faults};

use crate::attribute_names::AttributeNames;
use crate::checks::{check_item, known_attributes};
use crate::fault::{DeclarationError, Fault, FaultKind, note, or_return, wrong};
use crate::head::{begun_after, space_after};
use crate::heads::Heads;
use crate::kind::table_at;
use crate::lookup::Wanted;
use crate::scope::Scope;
use planus_schema::Statements;
use planus_syntax::{Declaration, Item, string_text};
use std::alloc::{AllocError, Global};

fn state(
    scope: &Scope,
    known: &AttributeNames,
    declaration: &Declaration,
    statements: &mut Statements,
) -> Result<(), DeclarationError>
    ensures said { OnOk result ((said_of statements.new ≡ after (scope_heads scope.now)
        (scope_space scope.now) (said_of statements.old) (item_of declaration.now.item))
        × (IsFour (said_of statements.old).identifier
        → IsFour (said_of statements.new).identifier)) }
    ensures wrong { Tells (wrong_said (scope_heads scope.now) (scope_space scope.now)
        known.now declaration.now) result }
{
    or_return!(check_item(scope, known, &declaration.item));
    match &declaration.item {
        Item::RootType(path) => {
            let table = or_return!(table_at(scope, Wanted::Root, path, FaultKind::RootIsNoTable));
            statements.root = Some(table);
        }
        Item::FileIdentifier(string) => {
            let identifier = or_return!(
                string_text(scope.alloc, string),
                DeclarationError::OutOfMemory
            );
            if identifier.len() != 4 {
                return Err(wrong(FaultKind::WrongIdentifier, declaration.left));
            }
            statements.identifier = Some(identifier);
        }
        Item::FileExtension(string) => {
            let extension = or_return!(
                string_text(scope.alloc, string),
                DeclarationError::OutOfMemory
            );
            statements.extension = Some(extension);
        }
        _ => {}
    }
    Ok(())
}

fn state_file(
    alloc: Global,
    heads: &Heads,
    known: &AttributeNames,
    file: usize,
    begun: &mut usize,
    declarations: &[Declaration],
    statements: &mut Statements,
    faults: &mut Vec<Fault>,
) -> Result<(), AllocError>
    requires { length faults.old.items ≤ 20 }
    ensures begun { OnOk result (begun.new ≡ begun_in begun.old (declarations_of declarations.now)) }
    ensures stated { OnOk result (AreStated (after_file (map head_of heads.now) begun.old None
        (said_of statements.old) (declarations_of declarations.now)) (statement_faults
        (map head_of heads.now) known.now file begun.old None declarations.now)
        statements.old statements.new faults.old.items faults.new.items) }
{
    let mut space = None;
    'declarations: for declaration in declarations {
        let scope = Scope {
            alloc,
            heads,
            integers: &[],
            space,
            begun: *begun,
        };
        match state(&scope, known, declaration, statements) {
            Ok(()) => {}
            Err(error) => or_return!(note(faults, file, error)),
        }
        space = space_after(space, declaration);
        *begun = or_return!(begun_after(*begun, declaration));
    }
    Ok(())
}

fn nothing_stated() -> Statements
    ensures { said_of result ≡ no_statements }
{
    Statements {
        root: None,
        identifier: None,
        extension: None,
    }
}

pub(crate) fn statements(
    alloc: Global,
    heads: &Heads,
    files: &[Vec<Declaration>],
    faults: &mut Vec<Fault>,
) -> Result<Statements, AllocError>
    requires { length faults.old.items ≤ 20 }
    ensures said { IfOk result (λ s. faults.new.items ≡ [] → said_of s
        ≡ after_files (map head_of heads.now) 0 no_statements
        (map (λ f. declarations_of f.items) files.now)) }
    ensures four { IfOk result (λ s. faults.new.items ≡ [] → IsFour (said_of s).identifier) }
    ensures kept { OnOk result (faults.new.items ≡ [] → faults.old.items ≡ []) }
    ensures most { OnOk result (length faults.new.items ≤ 20) }
    ensures adds { OnOk result (Adds (file_faults (map head_of heads.now)
        (spec.known_attributes files.now) 0 0 files.now) faults.old.items faults.new.items) }
{
    let names = or_return!(known_attributes(alloc, files));
    let known = or_return!(AttributeNames::new(alloc, &names));
    let mut statements = nothing_stated();
    let mut file = 0;
    let mut begun = 0;
    'files: for declarations in files {
        statements = nothing_stated();
        or_return!(state_file(
            alloc,
            heads,
            &known,
            file,
            &mut begun,
            declarations,
            &mut statements,
            faults,
        ));
        file += 1;
    }
    Ok(statements)
}

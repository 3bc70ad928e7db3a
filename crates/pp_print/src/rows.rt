//! Rows.
ghost use Rattle.std.specs.Prelude.{◌≡◌, ◌++◌, IfOk, OnOk, codes};
ghost use Rattle.pp_language.specs.Printing.{joined, column_texts, ranged_texts, behind_columns, row_text};
ghost use Rattle.pp_row.specs.Columns.{trees_of, sets_of};

use crate::domains::write_ranged;
use crate::terms::write_term;
use pp_domain::Domain;
use pp_term::{Names, Row, Term};
use std::alloc::{AllocError, Global};

/// Appends the columns.
fn write_columns(out: &mut Vec<u8>, names: &Names, columns: &[Term]) -> Result<(), AllocError>
    ensures { OnOk result (out.new.items
        ≡ out.old.items ++ joined (codes ", ") (column_texts names.now (trees_of columns.now))) }
{
    let mut separator = b"".as_slice();
    for column in columns {
        out.extend_from_slice(separator)?;
        write_term(out, names, column)?;
        separator = b", ".as_slice();
    }
    Ok(())
}

/// Appends the finite domains by their variables.
fn write_domains(out: &mut Vec<u8>, domains: &[Option<Domain>]) -> Result<(), AllocError>
    ensures { OnOk result (out.new.items ≡ out.old.items ++ behind_columns (ranged_texts 0 (sets_of domains.now))) }
{
    let mut separator = b" | ".as_slice();
    for (variable, domain) in domains.iter().enumerate() {
        if let Some(domain) = domain {
            out.extend_from_slice(separator)?;
            write_ranged(out, variable as u64, domain)?;
            separator = b", ".as_slice();
        }
    }
    Ok(())
}

/// Appends a row.
pub(crate) fn write_row(out: &mut Vec<u8>, names: &Names, row: &Row) -> Result<(), AllocError>
    ensures { OnOk result (out.new.items ≡ out.old.items ++ row_text names.now row.now) }
{
    write_columns(out, names, row.columns())?;
    write_domains(out, row.domains())
}

/// A row on one line.
pub fn row_text(alloc: Global, names: &Names, row: &Row) -> Result<Vec<u8>, AllocError>
    ensures { IfOk result (λ t. t.items ≡ row_text names.now row.now) }
{
    let mut out = Vec::new(alloc);
    write_row(&mut out, names, row)?;
    Ok(out)
}

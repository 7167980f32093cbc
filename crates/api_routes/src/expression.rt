//! Texts that are to be an expression.
ghost use Rattle.std.specs.Prelude.{◌≡◌, ℕ, List, Some, None, IfOk, ok_or};
ghost use Rattle.commit_graph.specs.Expressions.{RefExprValue, IsExpression};
ghost use Rattle.lake_calls.specs.declared.reply.FormRefusal.TheVariants.{BadValue};
ghost use Rattle.api_routes.specs.FormSteps.{IsRead};
ghost use Rattle.api_routes.specs.ExpressionTexts.{expression_of, expression_at};

use crate::fault::{FormFault, bad_value};
use commit_graph::{ExprFault, RefExpr};
use lake_base::Text;
use lake_calls::{EXPRESSION_LIMIT, Expression};
use std::alloc::Global;

// The expression that these bytes are; else a bad value of this name.
fn parsed(alloc: Global, name: &str, bytes: &[u8]) -> Result<RefExpr, FormFault>
    ensures read { IsRead (λ e. e) result (ok_or (expression_of bytes.now) (BadValue name.now)) }
    ensures found { IfOk result (λ e. IsExpression e bytes.now) }
{
    match RefExpr::read(alloc, bytes) {
        Ok(e) => Ok(e),
        Err(ExprFault::NoMemory) => Err(FormFault::NoMemory),
        Err(ExprFault::Bad(_)) => Err(bad_value(alloc, name)),
    }
}

/// The expression of a text of at most 67,108,864 bytes, with the text; else a bad value of this name. It is read
/// twice: what is known of it comes from the first time.
pub fn as_expression(alloc: Global, name: &str, text: Text) -> Result<Expression, FormFault>
    ensures { IsRead (λ expression. expression) result (expression_at name.now text) }
{
    let bytes = text.as_slice();
    if bytes.len() > EXPRESSION_LIMIT {
        return Err(bad_value(alloc, name));
    }
    let _e = parsed(alloc, name, bytes)?;
    match Expression::read(alloc, text) {
        Ok(expression) => Ok(expression),
        Err(_) => Err(FormFault::NoMemory),
    }
}

/// The expression that a text is read as is the one that it is, and there is no other. (A law: it does nothing.)
pub fn law_of_expressions()
    ensures is { (e : RefExprValue) (text : List ℕ) → IsExpression e text → expression_of text ≡ Some e }
    ensures none { (text : List ℕ) → ((e : RefExprValue) → IsExpression e text → ⊥) → expression_of text ≡ None }
{}

//! The check of an expression, part by part.
ghost use Rattle.std.specs.Prelude.{◌≡◌};
ghost use Rattle.spec_expressions.specs.Check.{checked_axis, checked_expr};
ghost use Rattle.spec_expressions.specs.Names.{with_variable};
ghost use Rattle.ras_catalog.specs.Outcome.{IsChecked, Joins, each_of};
ghost use Rattle.ras_check.specs.Walk.{check_of_domain, check_of_form, checked_both, checked_maybe};

use crate::joins::{
    Outcome, axes_in, binary, both, build, case, cast, cells, component, concat, condense, extend,
    given, index, like, literal, marray, number, position, sdom, shift, trim, typed, unary,
};
use crate::lists::push;
use crate::scope::Scope;
use ras_catalog::CheckError;
use ras_cells::{Atom, CellType};
use ras_domain::{List, Name};
use ras_kinds::CheckedDomain;
use ras_syntax::{Axis, DomainExpr, Expr, ExprForm, Kind, Span, TypedAxis, TypedExpr, TypedForm};
use sqlite_items::Boxed;
use std::alloc::Global;

impl<'a> Scope<'a> {
    /// An expression.
    #[cycle(walk)]
    pub(crate) fn walked(&mut self, alloc: Global, e: &'a Expr) -> Outcome
        ensures checked { IsChecked (checked_expr e.now self.old) result }
        ensures same { self.new ≡ self.old }
    {
        self.form(alloc, e.span, &e.form)
    }

    /// An expression by its form.
    #[cycle(walk)]
    fn form(&mut self, alloc: Global, span: Span, form: &'a ExprForm) -> Outcome
        ensures checked { IsChecked (check_of_form form.now span self.old) result }
        ensures same { self.new ≡ self.old }
    {
        match form {
            ExprForm::Bool(b) => typed(
                alloc,
                span,
                TypedForm::Bool(*b),
                Ok(Kind::Scalar(CellType::Atom(Atom::Bool))),
            ),
            ExprForm::Number { value, atom } => number(alloc, span, value, *atom),
            ExprForm::Name(name) => self.name(alloc, span, name),
            ExprForm::Unary { op, e } => {
                let e = self.walked(alloc, e.get());
                unary(alloc, span, *op, e)
            }
            ExprForm::Cast { to, e } => {
                let e = self.walked(alloc, e.get());
                cast(alloc, span, *to, e)
            }
            ExprForm::Binary { op, a, b } => {
                let a = self.walked(alloc, a.get());
                let b = self.walked(alloc, b.get());
                binary(alloc, span, *op, a, b)
            }
            ExprForm::Index { e, axes } => {
                let e = self.walked(alloc, e.get());
                let axes = self.axes(alloc, axes.as_slice());
                index(alloc, span, e, axes)
            }
            ExprForm::Part { e, part } => {
                let e = self.walked(alloc, e.get());
                component(alloc, span, self.sources(), e, part)
            }
            ExprForm::Case { arms, other } => {
                let arms = self.pairs(alloc, arms.as_slice());
                let other = self.walked(alloc, other.get());
                case(alloc, span, arms, other)
            }
            ExprForm::Build(parts) => {
                let parts = self.all(alloc, parts.as_slice());
                build(alloc, span, parts)
            }
            ExprForm::Marray { x, domain, e } => {
                let domain = self.domain(alloc, domain);
                let e = self.within(alloc, e.get(), &x.name, axes_in(&domain));
                let x = self.new_name(alloc, x);
                marray(alloc, span, domain, e, x)
            }
            ExprForm::Condense {
                op,
                x,
                domain,
                cond,
                e,
            } => {
                let domain = self.domain(alloc, domain);
                let cond = self.test_within(alloc, cond, &x.name, axes_in(&domain));
                let e = self.within(alloc, e.get(), &x.name, axes_in(&domain));
                let x = self.new_name(alloc, x);
                condense(alloc, span, *op, domain, cond, e, x)
            }
            ExprForm::Cells { f, e } => {
                let e = self.walked(alloc, e.get());
                cells(alloc, span, *f, e)
            }
            ExprForm::Shift { e, offsets } => {
                let e = self.walked(alloc, e.get());
                let offsets = self.all(alloc, offsets.as_slice());
                shift(alloc, span, e, offsets)
            }
            ExprForm::Extend { e, domain } => {
                let e = self.walked(alloc, e.get());
                let domain = self.domain(alloc, domain);
                extend(alloc, span, e, domain)
            }
            ExprForm::Concat { parts, along } => {
                let parts = self.all(alloc, parts.as_slice());
                concat(alloc, span, parts, along)
            }
            ExprForm::Sdom(e) => {
                let e = self.walked(alloc, e.get());
                sdom(alloc, span, e)
            }
            ExprForm::Oid(a) => self.oid(alloc, span, a),
        }
    }

    /// Expressions, from left to right.
    #[cycle(walk)]
    fn all(&mut self, alloc: Global, parts: &'a [Expr]) -> Result<List<TypedExpr>, CheckError>
        ensures checked { IsChecked (each_of (λ e. checked_expr e self.old) parts.now) result }
        ensures same { self.new ≡ self.old }
    {
        let mut all = List::new(alloc);
        for part in parts {
            let part = self.walked(alloc, part)?;
            push(alloc, &mut all, part.into_inner())?;
        }
        Ok(all)
    }

    /// Pairs of expressions, from left to right.
    #[cycle(walk)]
    fn pairs(
        &mut self,
        alloc: Global,
        pairs: &'a [(Expr, Expr)],
    ) -> Result<List<(TypedExpr, TypedExpr)>, CheckError>
        ensures checked { IsChecked (each_of (checked_both self.old) pairs.now) result }
        ensures same { self.new ≡ self.old }
    {
        let mut all = List::new(alloc);
        for pair in pairs {
            let first = self.walked(alloc, &pair.0);
            let second = self.walked(alloc, &pair.1);
            let both = both(first, second)?;
            push(alloc, &mut all, both)?;
        }
        Ok(all)
    }

    /// The axes of an index or of a target, from left to right.
    #[cycle(walk)]
    pub(crate) fn axes(
        &mut self,
        alloc: Global,
        axes: &'a [Axis],
    ) -> Result<List<TypedAxis>, CheckError>
        ensures checked { IsChecked (each_of (λ axis. checked_axis axis self.old) axes.now) result }
        ensures same { self.new ≡ self.old }
    {
        let mut all = List::new(alloc);
        for axis in axes {
            let axis = self.axis(alloc, axis)?;
            push(alloc, &mut all, axis)?;
        }
        Ok(all)
    }

    /// One axis.
    #[cycle(walk)]
    fn axis(&mut self, alloc: Global, axis: &'a Axis) -> Result<TypedAxis, CheckError>
        ensures checked { IsChecked (checked_axis axis.now self.old) result }
        ensures same { self.new ≡ self.old }
    {
        match axis {
            Axis::At(e) => {
                let e = self.walked(alloc, e);
                position(e)
            }
            Axis::Trim(a, b) => {
                let a = self.bound(alloc, a);
                let b = self.bound(alloc, b);
                trim(a, b)
            }
        }
    }

    /// A bound, or none.
    #[cycle(walk)]
    fn bound(
        &mut self,
        alloc: Global,
        e: &'a Option<Expr>,
    ) -> Result<Option<Boxed<TypedExpr>>, CheckError>
        ensures checked { IsChecked (checked_maybe e.now self.old) result }
        ensures same { self.new ≡ self.old }
    {
        match e {
            None => Ok(None),
            Some(e) => {
                let e = self.walked(alloc, e);
                given(e)
            }
        }
    }

    /// A domain.
    #[cycle(walk)]
    fn domain(&mut self, alloc: Global, domain: &'a DomainExpr) -> Result<CheckedDomain, CheckError>
        ensures checked { IsChecked (check_of_domain domain.now self.old) result }
        ensures same { self.new ≡ self.old }
    {
        match domain {
            DomainExpr::Literal(pairs) => {
                let pairs = self.pairs(alloc, pairs.as_slice());
                literal(pairs)
            }
            DomainExpr::Sdom(e) => {
                let e = self.walked(alloc, e.get());
                like(e)
            }
        }
    }

    /// An expression in which a variable is in scope too.
    #[cycle(walk)]
    fn within(
        &mut self,
        alloc: Global,
        e: &'a Expr,
        x: &'a Name,
        axes: Result<u32, CheckError>,
    ) -> Outcome
        ensures checked { Joins (λ n. checked_expr e.now (with_variable x.now n self.old)) axes result }
        ensures same { self.new ≡ self.old }
    {
        match self.enter_counted(x, axes) {
            Err(error) => Err(error),
            Ok(()) => {
                let e = self.walked(alloc, e);
                self.leave();
                e
            }
        }
    }

    /// A condition in which a variable is in scope too, or none.
    #[cycle(walk)]
    fn test_within(
        &mut self,
        alloc: Global,
        test: &'a Option<Boxed<Expr>>,
        x: &'a Name,
        axes: Result<u32, CheckError>,
    ) -> Result<Option<Boxed<TypedExpr>>, CheckError>
        ensures checked { Joins (λ n. checked_maybe test.now (with_variable x.now n self.old)) axes result }
        ensures same { self.new ≡ self.old }
    {
        match test {
            None => match axes {
                Ok(_) => Ok(None),
                Err(error) => Err(error),
            },
            Some(e) => {
                let e = self.within(alloc, e.get(), x, axes);
                given(e)
            }
        }
    }
}

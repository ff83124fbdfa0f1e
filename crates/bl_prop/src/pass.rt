// The working state of a pass, and its steps.
ghost use Rattle.std.specs.Prelude.{◌≡◌};

use crate::slack::{least, least_sum, most, turned};
use bl_bound::{LineRef, line};
use bl_mods::{Items, Shared};
use bl_num::product;
use bl_problem::{Cut, Decision, Row, Side, Term};
use std::alloc::AllocError;

// The bounds as they now are, the decisions so far, and the line that no point of the bounds meets.
#[derive(Drop)]
pub struct Pass {
    pub lows: Items<i64>,
    pub highs: Items<i64>,
    pub decisions: Items<Decision>,
    pub stuck: Option<u32>,
}

impl Pass {
    ghost use Rattle.std.specs.Prelude.{◌≡◌, ◌≤◌, ◌<◌, ◌+◌, ◌^◌, length, pos, ◌≤ℤ◌, ◌+ℤ◌, ◌-ℤ◌};
    ghost use Rattle.std.specs.Prelude.{OnOk, IsTrue};
    ghost use Rattle.bl_num.specs.Exact.{at};
    ghost use Rattle.bl_problem.specs.Sums.{IsWithin};
    ghost use Rattle.bl_problem.specs.Rows.{IsTerm, AreTerms};
    ghost use Rattle.bl_bound.specs.Lines.{line_of, lines_of};
    ghost use Rattle.bl_prop.specs.Passes.{turned, least_of, lowered_high, raised_low, cut_by};
    ghost use Rattle.bl_prop.specs.Passes.{cut_term, cut_terms, is_full, is_over, by_slack};
    ghost use Rattle.bl_prop.specs.Passes.{end_step, line_step, walked, IsNear};
    ghost use Rattle.bl_prop.specs.Limits.{IsSlack, IsEnd, IsLine, AreLines};

    fn low(&self, column: u32) -> i64
        requires { column < length self.now.lows }
        ensures { result ≡ at self.now.lows column }
    {
        self.lows.as_slice()[column as usize]
    }

    fn high(&self, column: u32) -> i64
        requires { column < length self.now.highs }
        ensures { result ≡ at self.now.highs column }
    {
        self.highs.as_slice()[column as usize]
    }

    // The slack of an end: the end less the least sum of the terms.
    fn slack(&self, terms: &[Term], negate: bool, end: i128) -> i128
        requires near { IsNear self.now }
        requires terms { AreTerms (length self.now.lows) terms.now }
        requires end { IsWithin (10 ^ 30) end }
        ensures exact { result ≡ turned negate end -ℤ least_of negate terms.now self.now.lows
            self.now.highs }
        ensures high { result ≤ℤ pos (10 ^ 31) }
    {
        let end = if negate { -end } else { end };
        end - least_sum(terms, negate, self.lows.as_slice(), self.highs.as_slice())
    }

    fn lower_high(&mut self, column: u32, value: i128) -> Result<(), AllocError>
        requires column { column < length self.old.highs }
        requires above { pos 0 ≤ℤ (value +ℤ pos (10 ^ 9)) }
        ensures { OnOk result (self.new ≡ lowered_high column value self.old) }
    {
        if value < self.high(column) as i128 {
            let value = value as i64;
            let side = Side::AtMost;
            self.decisions.push(Decision {
                column,
                side,
                value,
            })?;
            self.highs.set(column as usize, value);
        }
        Ok(())
    }

    fn raise_low(&mut self, column: u32, value: i128) -> Result<(), AllocError>
        requires column { column < length self.old.lows }
        requires below { value ≤ℤ pos (10 ^ 9) }
        ensures { OnOk result (self.new ≡ raised_low column value self.old) }
    {
        if (self.low(column) as i128) < value {
            let value = value as i64;
            let side = Side::AtLeast;
            self.decisions.push(Decision {
                column,
                side,
                value,
            })?;
            self.lows.set(column as usize, value);
        }
        Ok(())
    }

    // Whether the coefficient's size times the column's width is within the slack: it decides
    // nothing then.
    fn is_loose(&self, slack: i128, column: u32, coefficient: i64) -> bool
        requires near { IsNear self.now }
        requires column { column < length self.now.lows }
        requires small { IsWithin (10 ^ 15) coefficient }
        ensures { IsTrue result → cut_by slack column coefficient self.now ≡ self.now }
    {
        let size = turned(coefficient, coefficient < 0);
        product(size, self.high(column) - self.low(column)) <= slack
    }

    // What a coefficient decides at that slack.
    fn cut_by(&mut self, slack: i128, column: u32, coefficient: i64) -> Result<(), AllocError>
        requires near { IsNear self.old }
        requires column { column < length self.old.lows }
        requires small { IsWithin (10 ^ 15) coefficient }
        requires slack { IsSlack slack }
        ensures { OnOk result (self.new ≡ cut_by slack column coefficient self.old) }
    {
        if self.is_loose(slack, column, coefficient) {
            return Ok(());
        }
        if 0 < coefficient {
            let low = self.low(column);
            self.lower_high(column, most(low, slack, coefficient))
        } else if coefficient < 0 {
            let high = self.high(column);
            self.raise_low(column, least(high, slack, coefficient))
        } else {
            Ok(())
        }
    }

    // Whether 256 decisions stand.
    fn is_full(&self) -> bool
        ensures { result ≡ is_full self.now }
    {
        256 <= self.decisions.len()
    }

    // Whether no further end is looked at.
    fn is_over(&self) -> bool
        ensures { result ≡ is_over self.now }
    {
        match self.stuck {
            Some(_) => true,
            None => self.is_full(),
        }
    }

    fn cut_term(&mut self, term: Term, negate: bool, slack: i128) -> Result<(), AllocError>
        requires near { IsNear self.old }
        requires term { IsTerm (length self.old.lows) term }
        requires slack { IsSlack slack }
        ensures step { OnOk result (self.new ≡ cut_term negate slack self.old term) }
    {
        if self.is_full() {
            return Ok(());
        }
        self.cut_by(slack, term.column, turned(term.coefficient, negate))
    }

    fn cut_terms(&mut self, terms: &[Term], negate: bool, slack: i128) -> Result<(), AllocError>
        requires near { IsNear self.old }
        requires terms { AreTerms (length self.old.lows) terms.now }
        requires slack { IsSlack slack }
        ensures { OnOk result (self.new ≡ cut_terms negate slack terms.now self.old) }
    {
        for term in terms {
            self.cut_term(*term, negate, slack)?;
        }
        Ok(())
    }

    fn by_slack(
        &mut self,
        place: u32,
        terms: &[Term],
        negate: bool,
        slack: i128,
    ) -> Result<(), AllocError>
        requires near { IsNear self.old }
        requires terms { AreTerms (length self.old.lows) terms.now }
        requires slack_high { slack ≤ℤ pos (10 ^ 31) }
        ensures { OnOk result (self.new ≡ by_slack place negate terms.now slack self.old) }
    {
        if slack < 0 {
            self.stuck = Some(place);
            return Ok(());
        }
        self.cut_terms(terms, negate, slack)
    }

    // One end of a line, where it is there: a low end is that of the negated line.
    fn end_step(
        &mut self,
        place: u32,
        terms: &[Term],
        negate: bool,
        end: Option<i128>,
    ) -> Result<(), AllocError>
        requires near { IsNear self.old }
        requires terms { AreTerms (length self.old.lows) terms.now }
        requires end { IsEnd end }
        ensures { OnOk result (self.new ≡ end_step place negate terms.now end self.old) }
    {
        let Some(end) = end else {
            return Ok(());
        };
        if self.is_over() {
            return Ok(());
        }
        let slack = self.slack(terms, negate, end);
        self.by_slack(place, terms, negate, slack)
    }

    // Both ends of a line, high first.
    fn line_step(&mut self, place: u32, line: LineRef<'_>) -> Result<(), AllocError>
        requires near { IsNear self.old }
        requires line { IsLine (length self.old.lows) (line_of line) }
        ensures { OnOk result (self.new ≡ line_step place (line_of line.entry) self.old) }
    {
        self.end_step(place, line.terms, false, line.high)?;
        self.end_step(place, line.terms, true, line.low)
    }

    // All rows, and then all cuts.
    pub fn walk(&mut self, rows: &[Row], cuts: &[Shared<Cut>]) -> Result<(), AllocError>
        requires near { IsNear self.old }
        requires few_lines { length rows.now + length cuts.now ≤ 1200 }
        requires lines { AreLines (length self.old.lows) (lines_of rows.now cuts.now) }
        ensures { OnOk result (self.new ≡ walked (length (lines_of rows.now cuts.now))
            (lines_of rows.now cuts.now) self.old) }
    {
        for place in 0..rows.len() + cuts.len() {
            self.line_step(place as u32, line(rows, cuts, place))?;
        }
        Ok(())
    }
}

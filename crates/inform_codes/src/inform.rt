//! Codes, written as the statements of Inform that they are.

/// The codes of a routine's body, as an array, from its statements in Inform's own spelling.
///
/// A name is that of a place in the list of names; a number that is handed in stands in `[ ]`, and
/// the name of a constant in `{ }`. A part of more than one token stands in `( )`: a value within a
/// value, and each of the conditions that `&&` and `||` join. A value alone is a condition after
/// `true`. A `switch` has cases of one number each, and a `for` counts up by 1.
///
/// ```text
/// inform! {
///     for (I = 0; I < [ITEMS]) { if ((ITEM-->I) == { CARRIED }) { N++; } }
///     if (true (near(9))) { print FOUND; print value N; FLAG-->3 = (N + 1); }
///     return N;
/// }
/// ```
///
/// A rule looks at what is written next, then the codes so far, and then what waits: statements
/// (`s`), arguments (`a`), the cases of a switch (`w`), conditions (`c`) and values (`e`), each a
/// group of its own. So a rule that doesn't fit is passed over at once: the compiler bounds what it
/// does for one macro. Calls within calls are bounded too, and most codes take one; so a number
/// that is returned, and a name as an argument or as an index, have rules that write all of it.
#[macro_export]
macro_rules! inform {
    (@ (s) [$($done:tt)*]) => { [$($done)* $crate::Code::End] };
    (@ (s) [$($d:tt)*] $n:tt $($w:tt)*) => {
        $crate::inform!(@ $n [$($d)* $crate::Code::End,] $($w)*)
    };
    (@ (s if ($($c:tt)*) { $($a:tt)* } else { $($b:tt)* } $($r:tt)*) [$($d:tt)*] $($w:tt)*) => {
        $crate::inform!(@ (c $($c)*) [$($d)* $crate::Code::If,]
            (s $($a)*) (s $($b)*) (s $($r)*) $($w)*)
    };
    (@ (s if ($($c:tt)*) { $($a:tt)* } $($r:tt)*) [$($d:tt)*] $($w:tt)*) => {
        $crate::inform!(@ (c $($c)*) [$($d)* $crate::Code::If,] (s $($a)*) (s) (s $($r)*) $($w)*)
    };
    (@ (s while ($($c:tt)*) { $($a:tt)* } $($r:tt)*) [$($d:tt)*] $($w:tt)*) => {
        $crate::inform!(@ (c $($c)*) [$($d)* $crate::Code::While,] (s $($a)*) (s $($r)*) $($w)*)
    };
    (@ (s for ($i:ident = $x:tt; $($c:tt)*) { $($a:tt)* } $($r:tt)*) [$($d:tt)*] $($w:tt)*) => {
        $crate::inform!(@ (e $x) [$($d)* $crate::Code::For($i),]
            (c $($c)*) (s $($a)*) (s $($r)*) $($w)*)
    };
    (@ (s switch ($x:tt) { $($k:tt)* } $($r:tt)*) [$($d:tt)*] $($w:tt)*) => {
        $crate::inform!(@ (e $x) [$($d)* $crate::Code::Switch,] (w $($k)*) (s $($r)*) $($w)*)
    };
    (@ (s return $n:literal; $($r:tt)*) [$($d:tt)*] $($w:tt)*) => {
        $crate::inform!(@ (s $($r)*) [$($d)* $crate::Code::Return, $crate::Code::Number($n),]
            $($w)*)
    };
    (@ (s return $x:tt; $($r:tt)*) [$($d:tt)*] $($w:tt)*) => {
        $crate::inform!(@ (e $x) [$($d)* $crate::Code::Return,] (s $($r)*) $($w)*)
    };
    (@ (s rtrue; $($r:tt)*) [$($d:tt)*] $($w:tt)*) => {
        $crate::inform!(@ (s $($r)*) [$($d)* $crate::Code::Rtrue,] $($w)*)
    };
    (@ (s rfalse; $($r:tt)*) [$($d:tt)*] $($w:tt)*) => {
        $crate::inform!(@ (s $($r)*) [$($d)* $crate::Code::Rfalse,] $($w)*)
    };
    (@ (s break; $($r:tt)*) [$($d:tt)*] $($w:tt)*) => {
        $crate::inform!(@ (s $($r)*) [$($d)* $crate::Code::Break,] $($w)*)
    };
    (@ (s quit; $($r:tt)*) [$($d:tt)*] $($w:tt)*) => {
        $crate::inform!(@ (s $($r)*) [$($d)* $crate::Code::Quit,] $($w)*)
    };
    (@ (s new_line; $($r:tt)*) [$($d:tt)*] $($w:tt)*) => {
        $crate::inform!(@ (s $($r)*) [$($d)* $crate::Code::NewLine,] $($w)*)
    };
    (@ (s print value $x:tt; $($r:tt)*) [$($d:tt)*] $($w:tt)*) => {
        $crate::inform!(@ (e $x) [$($d)* $crate::Code::PrintValue,] (s $($r)*) $($w)*)
    };
    (@ (s print char $x:tt; $($r:tt)*) [$($d:tt)*] $($w:tt)*) => {
        $crate::inform!(@ (e $x) [$($d)* $crate::Code::PrintChar,] (s $($r)*) $($w)*)
    };
    (@ (s print $t:ident; $($r:tt)*) [$($d:tt)*] $($w:tt)*) => {
        $crate::inform!(@ (s $($r)*) [$($d)* $crate::Code::Print($t),] $($w)*)
    };
    (@ (s read $a:ident $b:ident; $($r:tt)*) [$($d:tt)*] $($w:tt)*) => {
        $crate::inform!(@ (s $($r)*) [$($d)* $crate::Code::Read($a, $b),] $($w)*)
    };
    (@ (s $a:ident --> $i:tt = $x:tt; $($r:tt)*) [$($d:tt)*] $($w:tt)*) => {
        $crate::inform!(@ (e $i) [$($d)* $crate::Code::SetEntry($a, true),]
            (e $x) (s $($r)*) $($w)*)
    };
    (@ (s $a:ident -> $i:tt = $x:tt; $($r:tt)*) [$($d:tt)*] $($w:tt)*) => {
        $crate::inform!(@ (e $i) [$($d)* $crate::Code::SetEntry($a, false),]
            (e $x) (s $($r)*) $($w)*)
    };
    (@ (s $v:ident++; $($r:tt)*) [$($d:tt)*] $($w:tt)*) => {
        $crate::inform!(@ (s $($r)*) [$($d)* $crate::Code::Inc($v),] $($w)*)
    };
    (@ (s $v:ident--; $($r:tt)*) [$($d:tt)*] $($w:tt)*) => {
        $crate::inform!(@ (s $($r)*) [$($d)* $crate::Code::Dec($v),] $($w)*)
    };
    (@ (s $v:ident = $x:tt; $($r:tt)*) [$($d:tt)*] $($w:tt)*) => {
        $crate::inform!(@ (e $x) [$($d)* $crate::Code::Set($v),] (s $($r)*) $($w)*)
    };
    (@ (s $f:ident($($x:tt)*); $($r:tt)*) [$($d:tt)*] $($w:tt)*) => {
        $crate::inform!(@ (a $($x)*) [$($d)* $crate::Code::Call($f),] (s $($r)*) $($w)*)
    };
    (@ (a) [$($d:tt)*] $n:tt $($w:tt)*) => {
        $crate::inform!(@ $n [$($d)* $crate::Code::NoMore,] $($w)*)
    };
    (@ (a $v:ident) [$($d:tt)*] $n:tt $($w:tt)*) => {
        $crate::inform!(@ $n [$($d)* $crate::Code::Argument, $crate::Code::Variable($v),
            $crate::Code::NoMore,] $($w)*)
    };
    (@ (a $v:ident, $($r:tt)*) [$($d:tt)*] $($w:tt)*) => {
        $crate::inform!(@ (a $($r)*) [$($d)* $crate::Code::Argument, $crate::Code::Variable($v),]
            $($w)*)
    };
    (@ (a $x:tt) [$($d:tt)*] $($w:tt)*) => {
        $crate::inform!(@ (e $x) [$($d)* $crate::Code::Argument,] (a) $($w)*)
    };
    (@ (a $x:tt, $($r:tt)*) [$($d:tt)*] $($w:tt)*) => {
        $crate::inform!(@ (e $x) [$($d)* $crate::Code::Argument,] (a $($r)*) $($w)*)
    };
    (@ (w) [$($d:tt)*] $n:tt $($w:tt)*) => {
        $crate::inform!(@ $n [$($d)* $crate::Code::NoDefault,] $($w)*)
    };
    (@ (w default: { $($a:tt)* }) [$($d:tt)*] $($w:tt)*) => {
        $crate::inform!(@ (s $($a)*) [$($d)* $crate::Code::Default,] $($w)*)
    };
    (@ (w $n:literal: { $($a:tt)* } $($r:tt)*) [$($d:tt)*] $($w:tt)*) => {
        $crate::inform!(@ (s $($a)*) [$($d)* $crate::Code::Case, $crate::Code::Choice($n),]
            (w $($r)*) $($w)*)
    };
    (@ (c $a:tt == $b:tt) [$($d:tt)*] $($w:tt)*) => {
        $crate::inform!(@ (e $a) [$($d)* $crate::Code::Compare($crate::Relation::Eq),]
            (e $b) $($w)*)
    };
    (@ (c $a:tt != $b:tt) [$($d:tt)*] $($w:tt)*) => {
        $crate::inform!(@ (e $a) [$($d)* $crate::Code::Compare($crate::Relation::Ne),]
            (e $b) $($w)*)
    };
    (@ (c $a:tt < $b:tt) [$($d:tt)*] $($w:tt)*) => {
        $crate::inform!(@ (e $a) [$($d)* $crate::Code::Compare($crate::Relation::Lt),]
            (e $b) $($w)*)
    };
    (@ (c $a:tt > $b:tt) [$($d:tt)*] $($w:tt)*) => {
        $crate::inform!(@ (e $a) [$($d)* $crate::Code::Compare($crate::Relation::Gt),]
            (e $b) $($w)*)
    };
    (@ (c $a:tt <= $b:tt) [$($d:tt)*] $($w:tt)*) => {
        $crate::inform!(@ (e $a) [$($d)* $crate::Code::Compare($crate::Relation::Le),]
            (e $b) $($w)*)
    };
    (@ (c $a:tt >= $b:tt) [$($d:tt)*] $($w:tt)*) => {
        $crate::inform!(@ (e $a) [$($d)* $crate::Code::Compare($crate::Relation::Ge),]
            (e $b) $($w)*)
    };
    (@ (c true $x:tt) [$($d:tt)*] $($w:tt)*) => {
        $crate::inform!(@ (e $x) [$($d)* $crate::Code::Nonzero,] $($w)*)
    };
    (@ (c !($($c:tt)*)) [$($d:tt)*] $($w:tt)*) => {
        $crate::inform!(@ (c $($c)*) [$($d)* $crate::Code::Not,] $($w)*)
    };
    (@ (c ($($a:tt)*) && ($($b:tt)*)) [$($d:tt)*] $($w:tt)*) => {
        $crate::inform!(@ (c $($a)*) [$($d)* $crate::Code::Both,] (c $($b)*) $($w)*)
    };
    (@ (c ($($a:tt)*) || ($($b:tt)*)) [$($d:tt)*] $($w:tt)*) => {
        $crate::inform!(@ (c $($a)*) [$($d)* $crate::Code::Either,] (c $($b)*) $($w)*)
    };
    (@ (e $n:literal) [$($d:tt)*] $next:tt $($w:tt)*) => {
        $crate::inform!(@ $next [$($d)* $crate::Code::Number($n),] $($w)*)
    };
    (@ (e { $n:ident }) [$($d:tt)*] $next:tt $($w:tt)*) => {
        $crate::inform!(@ $next [$($d)* $crate::Code::Number($n as u32),] $($w)*)
    };
    (@ (e [$n:tt]) [$($d:tt)*] $next:tt $($w:tt)*) => {
        $crate::inform!(@ $next [$($d)* $crate::Code::Given($n),] $($w)*)
    };
    (@ (e $v:ident) [$($d:tt)*] $n:tt $($w:tt)*) => {
        $crate::inform!(@ $n [$($d)* $crate::Code::Variable($v),] $($w)*)
    };
    (@ (e ($a:ident --> $i:ident)) [$($d:tt)*] $n:tt $($w:tt)*) => {
        $crate::inform!(@ $n [$($d)* $crate::Code::Entry($a, true), $crate::Code::Variable($i),]
            $($w)*)
    };
    (@ (e ($a:ident --> $i:tt)) [$($d:tt)*] $($w:tt)*) => {
        $crate::inform!(@ (e $i) [$($d)* $crate::Code::Entry($a, true),] $($w)*)
    };
    (@ (e ($a:ident -> $i:tt)) [$($d:tt)*] $($w:tt)*) => {
        $crate::inform!(@ (e $i) [$($d)* $crate::Code::Entry($a, false),] $($w)*)
    };
    (@ (e (random $x:tt)) [$($d:tt)*] $($w:tt)*) => {
        $crate::inform!(@ (e $x) [$($d)* $crate::Code::Random,] $($w)*)
    };
    (@ (e ($f:ident($($x:tt)*))) [$($d:tt)*] $($w:tt)*) => {
        $crate::inform!(@ (a $($x)*) [$($d)* $crate::Code::CallValue($f),] $($w)*)
    };
    (@ (e (-$x:tt)) [$($d:tt)*] $($w:tt)*) => {
        $crate::inform!(@ (e $x) [$($d)* $crate::Code::Neg,] $($w)*)
    };
    (@ (e ($a:tt + $b:tt)) [$($d:tt)*] $($w:tt)*) => {
        $crate::inform!(@ (e $a) [$($d)* $crate::Code::Sum($crate::SumOp::Add),] (e $b) $($w)*)
    };
    (@ (e ($a:tt - $b:tt)) [$($d:tt)*] $($w:tt)*) => {
        $crate::inform!(@ (e $a) [$($d)* $crate::Code::Sum($crate::SumOp::Sub),] (e $b) $($w)*)
    };
    (@ (e ($a:tt * $b:tt)) [$($d:tt)*] $($w:tt)*) => {
        $crate::inform!(@ (e $a) [$($d)* $crate::Code::Product($crate::ProdOp::Mul),] (e $b) $($w)*)
    };
    (@ (e ($a:tt / $b:tt)) [$($d:tt)*] $($w:tt)*) => {
        $crate::inform!(@ (e $a) [$($d)* $crate::Code::Product($crate::ProdOp::Div),] (e $b) $($w)*)
    };
    (@ (e ($a:tt % $b:tt)) [$($d:tt)*] $($w:tt)*) => {
        $crate::inform!(@ (e $a) [$($d)* $crate::Code::Product($crate::ProdOp::Rem),] (e $b) $($w)*)
    };
    (@ $($other:tt)*) => { compile_error!("no statement, condition or value") };
    ($($body:tt)*) => { $crate::inform!(@ (s $($body)*) []) };
}

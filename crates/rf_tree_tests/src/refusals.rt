/// Sources whose items make no tree, with two causes at one place among them.
pub const ROWS: &str = r##")⇒CloseWithout at 0
a)⇒CloseWithout at 1
(a))⇒CloseWithout at 3
;c⏎]⇒CloseWithout at 3
#;a)⇒CloseWithout at 3
(a]⇒CloseMismatch at 2
[a)⇒CloseMismatch at 2
{(a})⇒CloseMismatch at 3
#(a]⇒CloseMismatch at 3
(⇒OpenList at 0
(a⇒OpenList at 0
((a)⇒OpenList at 0
(a [b⇒OpenList at 3
a #(b⇒OpenList at 2
'⇒NothingAfter at 0
a '⇒NothingAfter at 2
''⇒NothingAfter at 1
#;⇒NothingAfter at 0
#;'⇒NothingAfter at 2
'#;⇒NothingAfter at 1
#;#;a⇒NothingAfter at 0
';c⇒NothingAfter at 0
'#;a⇒NothingAfter at 0
(')⇒NothingAfter at 1
(a #;)⇒NothingAfter at 3
(';c⏎)⇒NothingAfter at 1
(#;'])⇒NothingAfter at 3
('⇒NothingAfter at 1
((#;⇒NothingAfter at 2
')⇒NothingAfter at 0
(a '])⇒NothingAfter at 3
'(⇒OpenList at 1
('(a⇒OpenList at 2
(a .]⇒CloseMismatch at 4
(a . '⇒NothingAfter at 5
(a . ')⇒NothingAfter at 5
(a . b ')⇒BadDot at 7
(a . b #;)⇒NothingAfter at 7
(a .⇒OpenList at 0
(a . b⇒OpenList at 0
) (⇒CloseWithout at 0
(a] .⇒CloseMismatch at 2"##;

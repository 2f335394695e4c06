/// The files of a small site to start from, each with its path: a layout by two partials, a start page with a
/// list, an about page, and a style.
pub const BEGINNING: [(&str, &str); 8] = [
    (
        "data/about.json",
        "{
  \"title\": \"About\",
  \"text\": \"Who writes here, and how to reach us.\"
}
",
    ),
    (
        "data/start.json",
        "{
  \"title\": \"A site\",
  \"text\": \"Change data/start.json, and look again.\",
  \"items\": [
    {\"name\": \"templates\", \"what\": \"how pages look\"},
    {\"name\": \"data\", \"what\": \"what they say\"},
    {\"name\": \"routes\", \"what\": \"where they are\"}
  ]
}
",
    ),
    (
        "partials/foot.mustache",
        "</body>
</html>
",
    ),
    (
        "partials/head.mustache",
        "<!doctype html>
<html lang=\"en\">
<head>
<meta charset=\"utf-8\">
<meta name=\"viewport\" content=\"width=device-width, initial-scale=1\">
<title>{{title}}</title>
<link rel=\"icon\" href=\"data:,\">
{{>style}}
</head>
<body>
<nav><a href=\"/\">Start</a> <a href=\"/about\">About</a></nav>
<h1>{{title}}</h1>
",
    ),
    (
        "partials/style.mustache",
        "<style>
:root { color-scheme: light dark; }
body { max-width: 44rem; margin: 0 auto; padding: 1rem; font: 1rem/1.5 system-ui, sans-serif; }
</style>
",
    ),
    (
        "routes",
        "/ list start
/about page about
",
    ),
    (
        "templates/list.mustache",
        "{{>head}}
<p>{{text}}</p>
<ul>
{{#items}}
<li>{{name}}: {{what}}</li>
{{/items}}
</ul>
{{>foot}}
",
    ),
    (
        "templates/page.mustache",
        "{{>head}}
<p>{{text}}</p>
{{>foot}}
",
    ),
];
